//! Laws on streams of requests. Each is the contract of a function that does nothing of its own.
ghost use Rattle.pid_http_stream.specs.Laws.{StreamsAreUnique, RequestsStay};

/// A stream splits in one way: it has one list of requests, and one ending.
pub fn streams_are_unique()
    ensures { StreamsAreUnique }
{}

/// A request that some bytes begin with stays what it is, whatever comes after them.
pub fn requests_stay()
    ensures { RequestsStay }
{}
