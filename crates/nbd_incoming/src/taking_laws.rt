//! What holds of what is taken out of a stream: the law is the contract of a function that does nothing.
ghost use Rattle.nbd_incoming.specs.Taking.{EndingLaw, GroupsLaw};

/// However a stream is cut into pieces, what is taken of them are the requests that end in each, and what ends those of
/// the stream.
pub fn what_is_taken_are_the_requests_of_the_stream()
    ensures requests { GroupsLaw }
    ensures ending { EndingLaw }
{}
