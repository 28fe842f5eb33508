//! That a tally is the one of all requests and replies: each law is the contract of a function that does nothing.
ghost use Rattle.workload.specs.Laws.{BoundsLaw, MoreAsksLaw, MoreRepliesLaw, NoTallyLaw, OtherAnswersLaw};

/// A tally begins with nothing, goes on with each request of a workload and each reply, and counts no more than there
/// are.
pub fn tallies_go_on()
    ensures none { NoTallyLaw }
    ensures asks { MoreAsksLaw }
    ensures replies { MoreRepliesLaw }
    ensures others { OtherAnswersLaw }
    ensures bounds { BoundsLaw }
{}
