ghost use Rattle.serve_requests.specs.Laws.{RequestsEnd, RequestsEndInLf, RequestsGoOn, RequestsCanBeCut};

/// The requests of an input are its first, which is what stands before the first LF without a CR at its end, and as many bytes after that LF as
/// this line tells of, and then those of what follows. So a line that tells of none is a request alone. An input without LF is one request, or none
/// where it is empty. Bytes that go on do so from what they have begun, and an input may be cut where no request has begun. (Only a law: the
/// function does nothing.)
pub fn requests_end()
    ensures requests { RequestsEnd }
    ensures lines { RequestsEndInLf }
    ensures go_on { RequestsGoOn }
    ensures cut { RequestsCanBeCut }
{}
