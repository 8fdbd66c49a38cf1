//! The answers to the replies of the office.

ghost use Rattle.std.specs.Prelude.{◌≡◌, IfOk};
ghost use Rattle.desk_answers.specs.Answers.{IsAnswered, answer_to, document_text, json_answer};
ghost use Rattle.desk_answers.specs.Words.{opened_value};

use crate::answer::{Answer, Document};
use crate::errors::PlainError;
use crate::json::{edition_answer, opened_answer};
use crate::refusals::refused_answer;
use base_words::NoMemory;
use flight_history::Reply;
use flight_state::FlightKey;
use keeper::Bytes;
use last_minute::Sheet;
use ldm_cpm::{write_cpm, write_ldm};
use loadsheet_text::write_sheet;
use problem_text::write_task;
use std::alloc::Global;
use std::str;

/// The text of a document.
fn document_text(alloc: Global, document: Document, sheet: &Sheet) -> Result<Bytes, NoMemory>
    ensures { IfOk result (λ text. text ≡ document_text document sheet.now) }
{
    let text = match document {
        Document::Loadsheet => write_sheet(alloc, sheet)?,
        Document::LoadMessage => write_ldm(alloc, sheet)?,
        Document::ContainerMessage => write_cpm(alloc, sheet)?,
    };
    Ok(Bytes::from(text))
}

/// The key as text.
fn key_text(key: &FlightKey) -> &str
    ensures { result.now ≡ key.now }
{
    let Ok(text) = str::from_utf8(key.bytes()) else {
        unreachable!();
    };
    text
}

/// The answer where a flight was opened under a key.
fn key_answer(alloc: Global, key: &FlightKey) -> Result<Answer, NoMemory>
    ensures { IfOk result (λ answer. answer ≡ json_answer 201 (opened_value key.now)) }
{
    opened_answer(alloc, key_text(key))
}

/// The answer to a reply, which shows the document where it has a sheet.
pub fn answer_to(alloc: Global, document: Document, reply: Reply) -> Result<Answer, PlainError>
    ensures { IsAnswered (answer_to document reply) result }
{
    match reply {
        Reply::Opened(key) => Ok(key_answer(alloc, &key)?),
        Reply::Edition(edition) => Ok(edition_answer(alloc, edition)?),
        Reply::Row(row) => Ok(Answer::text(row)),
        Reply::Sheet(sheet) => Ok(Answer::text(document_text(alloc, document, &sheet)?)),
        Reply::Task(task) => Ok(Answer::text(Bytes::from(write_task(alloc, &task)?))),
        Reply::Refused(refusal) => refused_answer(alloc, &refusal),
        Reply::NoMemory => Err(PlainError::Memory),
    }
}
