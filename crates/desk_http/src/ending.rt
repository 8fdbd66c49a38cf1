//! How a connection ends.

use http_wire::Refusal;

/// How a connection ended. Being out of memory never ends one: it is the answer to a request.
#[derive(Clone, Copy, Debug, PartialEq, Eq)]
pub enum ConnEnd {
    /// The input ended between requests, or the last request was answered.
    Ended,
    /// A head or a body was refused, which was answered.
    Refused(Refusal),
    /// A read failed. What was heard whole before it was answered.
    ReadFault,
    /// A write failed. The last answer was not written whole.
    WriteFault,
    /// As many requests were answered as a connection may have.
    Served,
}
