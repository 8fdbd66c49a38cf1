//! Answers.

ghost use Rattle.std.specs.Prelude.{◌≡◌};
ghost use Rattle.desk_answers.specs.Answers.{text_answer};

use keeper::Bytes;

/// An answer: its status, whether its body is JSON or plain text, and its body.
#[derive(Debug, Drop)]
pub struct Answer {
    pub status: u16,
    pub json: bool,
    pub body: Bytes,
}

/// A document that shows the sheet of a flight.
#[derive(Clone, Copy, Debug, PartialEq, Eq)]
pub enum Document {
    Loadsheet,
    LoadMessage,
    ContainerMessage,
}

impl Answer {
    /// A text, with status 200.
    pub fn text(body: Bytes) -> Answer
        ensures { result ≡ text_answer body }
    {
        Answer {
            status: 200,
            json: false,
            body,
        }
    }
}
