//! What holds of submissions: each law is the contract of a function that does nothing.

ghost use Rattle.device_model.specs.SubmissionLaws.{AcceptedLaw, KeptLaw, RefusedLaw, TicketLaw};

/// A submission gets the next ticket exactly where it is no write in recovery mode, is in range, has as
/// many bytes as its blocks and finds a slot. Where it gets none nothing changes.
pub fn submissions_are_judged()
    ensures ticket { TicketLaw }
    ensures refused { RefusedLaw }
{}

/// Each request on the list is what was submitted, so in range, and stays that.
pub fn requests_are_those_submitted()
    ensures accepted { AcceptedLaw }
    ensures kept { KeptLaw }
{}
