// The laws of requests and refusals.
ghost use Rattle.http_wire.specs.Laws.{BeginsAlike, BeginsWithOne, GoesOn, GoesOnByOne, HasOneList, NothingAtTheEnd, RefusedForOne, RefusedOrNot};

/// Does nothing. Its contract says that the definitions of requests and refusals mean what they are meant to: an
/// input begins with one request, or is refused for one reason, or is at its end, and only a bad head and a long one
/// may both be said; what is behind a request does not matter to it; an input has one list of requests, whether it is
/// read at once or request by request.
pub fn request_laws()
    ensures one_request { BeginsWithOne }
    ensures refused_or_not { RefusedOrNot }
    ensures one_refusal { RefusedForOne }
    ensures nothing_at_the_end { NothingAtTheEnd }
    ensures begins_alike { BeginsAlike }
    ensures one_list { HasOneList }
    ensures goes_on_by_one { GoesOnByOne }
    ensures goes_on { GoesOn }
{}
