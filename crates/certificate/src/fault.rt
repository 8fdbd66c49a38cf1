ghost use Rattle.std.specs.Prelude.{◌≡◌};
ghost use Rattle.certificate.specs.Refusals.{cert_fault};

use text_lines::LineFault;
use thiserror::Error;

/// Why a text is not read as a certificate of one kind or the other. Lines count from 1, the first of the whole text.
#[derive(Clone, Copy, Debug, PartialEq, Eq, Error)]
pub enum CertFault {
    /// The text has no line with which such a certificate begins, as `CERTIFICATE 1`.
    #[error("the text has no line with which the certificate begins")]
    NoStart,
    /// The first line that no certificate has there, given the lines from its start on before it.
    #[error("line {0} is not a line of a certificate")]
    Line(usize),
    /// The text stops before the end of its line `END`.
    #[error("the text stops before the end of its line `END`")]
    NoEnd,
    /// There was no memory for the certificate.
    #[error("out of memory")]
    NoMemory,
}

impl From<LineFault> for CertFault {
    ghost from_gives = { λ line fault. fault ≡ cert_fault line };

    fn from(fault: LineFault) -> CertFault {
        match fault {
            LineFault::Line(number) => CertFault::Line(number),
            LineFault::NoEnd => CertFault::NoEnd,
            LineFault::NoMemory => CertFault::NoMemory,
        }
    }
}
