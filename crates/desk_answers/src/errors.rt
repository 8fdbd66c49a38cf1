//! Errors that are said in one word.

ghost use Rattle.std.specs.Prelude.{◌≡◌, IsTrue};
ghost use Rattle.http_wire.specs.Answer.{is_answered};
ghost use Rattle.desk_answers.specs.Words.{body_of, status_of};
ghost use Rattle.desk_answers.specs.declared.errors.PlainError.TheVariants.{Memory};

use base_words::NoMemory;
use thiserror::Error;

/// An error that is said in one word. To answer it takes no memory.
#[derive(Clone, Copy, Debug, PartialEq, Eq, Error)]
pub enum PlainError {
    /// No route has the path.
    #[error("no route")]
    NoRoute,
    /// The route has another method.
    #[error("method")]
    Method,
    /// The edition is no number from 1 to 4,294,967,295.
    #[error("edition")]
    Edition,
    /// The body is not in the form of its request.
    #[error("body")]
    Body,
    /// The office has no room for an entry.
    #[error("full")]
    Full,
    /// The flight is there already.
    #[error("exists")]
    Exists,
    /// No aircraft of the fleet has the registration.
    #[error("no aircraft")]
    NoAircraft,
    /// The office has as many flights as it may have.
    #[error("office full")]
    OfficeFull,
    /// No flight of that key is there.
    #[error("no flight")]
    NoFlight,
    /// The flight has departed.
    #[error("gone")]
    Gone,
    /// The flight is not released.
    #[error("not released")]
    NotReleased,
    /// The flight has no plan.
    #[error("no plan")]
    NoPlan,
    /// The plan was made for other figures.
    #[error("other task")]
    OtherTask,
    /// There is no higher edition.
    #[error("spent")]
    Spent,
    /// The keeper failed.
    #[error("keeper")]
    Keeper,
    /// Out of memory.
    #[error("memory")]
    Memory,
}

impl PlainError {
    /// The status that is answered.
    pub fn status(self) -> u16
        ensures status { result ≡ status_of self }
        ensures answered { IsTrue (is_answered result) }
    {
        match self {
            PlainError::Edition | PlainError::Body => 400,
            PlainError::NoRoute | PlainError::NoFlight => 404,
            PlainError::Method => 405,
            PlainError::Exists
            | PlainError::NoAircraft
            | PlainError::OfficeFull
            | PlainError::Gone
            | PlainError::NotReleased
            | PlainError::NoPlan
            | PlainError::OtherTask
            | PlainError::Spent => 422,
            PlainError::Memory => 500,
            PlainError::Keeper => 503,
            PlainError::Full => 507,
        }
    }

    /// The body that is answered, which is JSON.
    pub fn body(self) -> &'static [u8]
        ensures { result.now ≡ body_of self }
    {
        match self {
            PlainError::NoRoute => b"{\"error\":\"no route\"}",
            PlainError::Method => b"{\"error\":\"method\"}",
            PlainError::Edition => b"{\"error\":\"edition\"}",
            PlainError::Body => b"{\"error\":\"body\"}",
            PlainError::Full => b"{\"error\":\"full\"}",
            PlainError::Exists => b"{\"error\":\"exists\"}",
            PlainError::NoAircraft => b"{\"error\":\"no aircraft\"}",
            PlainError::OfficeFull => b"{\"error\":\"office full\"}",
            PlainError::NoFlight => b"{\"error\":\"no flight\"}",
            PlainError::Gone => b"{\"error\":\"gone\"}",
            PlainError::NotReleased => b"{\"error\":\"not released\"}",
            PlainError::NoPlan => b"{\"error\":\"no plan\"}",
            PlainError::OtherTask => b"{\"error\":\"other task\"}",
            PlainError::Spent => b"{\"error\":\"spent\"}",
            PlainError::Keeper => b"{\"error\":\"keeper\"}",
            PlainError::Memory => b"{\"error\":\"memory\"}",
        }
    }
}

impl From<NoMemory> for PlainError {
    ghost from_gives = { λ _ error. error ≡ Memory };

    fn from(_: NoMemory) -> PlainError {
        PlainError::Memory
    }
}
