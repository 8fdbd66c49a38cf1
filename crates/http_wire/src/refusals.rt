// Why a request is refused, and what is answered then.
ghost use Rattle.std.specs.Prelude.{◌≡◌, IsTrue};
ghost use Rattle.http_wire.specs.Answer.{is_answered};
ghost use Rattle.http_wire.specs.Refusals.{status_of, body_of};

use thiserror::Error;

/// Why a head or a body is refused, in the order in which the reasons are looked for. A refusal ends its connection.
#[derive(Clone, Copy, Debug, PartialEq, Eq, Error)]
pub enum Refusal {
    /// The bytes can become no head, or the input ends in the middle of one.
    #[error("no head")]
    BadHead,

    /// The head has too many bytes or too many fields.
    #[error("the head is too long")]
    HeadTooLong,

    /// The body has a transfer coding.
    #[error("the body has a transfer coding")]
    TransferCoding,

    /// More than one length is stated, or one that is not 1 to 9 digits.
    #[error("no length")]
    BadLength,

    /// The body has too many bytes.
    #[error("the body is too long")]
    BodyTooLong,

    /// The input ends before the body does.
    #[error("the body is cut")]
    BodyCut,
}

impl Refusal {
    /// The status that is answered.
    pub fn status(self) -> u16
        ensures status { result ≡ status_of self }
        ensures answered { IsTrue (is_answered result) }
    {
        match self {
            Refusal::BadHead | Refusal::BadLength | Refusal::BodyCut => 400,
            Refusal::BodyTooLong => 413,
            Refusal::HeadTooLong => 431,
            Refusal::TransferCoding => 501,
        }
    }

    /// The body that is answered, which is JSON.
    pub fn body(self) -> &'static [u8]
        ensures { result.now ≡ body_of self }
    {
        match self {
            Refusal::BadHead => b"{\"error\":\"head\"}",
            Refusal::HeadTooLong => b"{\"error\":\"head too long\"}",
            Refusal::TransferCoding => b"{\"error\":\"transfer coding\"}",
            Refusal::BadLength => b"{\"error\":\"length\"}",
            Refusal::BodyTooLong => b"{\"error\":\"too long\"}",
            Refusal::BodyCut => b"{\"error\":\"cut\"}",
        }
    }
}

/// Why no request was heard.
#[derive(Clone, Copy, Debug, PartialEq, Eq, Error)]
pub enum WireFault {
    /// What was heard is refused.
    #[error("refused: {0}")]
    Refused(Refusal),

    /// A read of the link failed.
    #[error("a read failed")]
    ReadFault,
}
