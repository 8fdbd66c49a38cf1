//! The answers to what the office refuses.

ghost use Rattle.std.specs.Prelude.{codes};
ghost use Rattle.desk_answers.specs.Answers.{IsAnswered, json_answer, late_members, refused_answer, trim_members};
ghost use Rattle.desk_answers.specs.Words.{error_value};

use crate::answer::Answer;
use crate::errors::PlainError;
use crate::json::{breaking_error, broken_error, edition_error, reason_error, value_error};
use flight_history::Refusal;
use last_minute::LmcFault;
use std::alloc::Global;
use trim::TrimFault;

/// The answer to a refused late change.
fn late_error(alloc: Global, fault: &LmcFault) -> Result<Answer, PlainError>
    ensures { IsAnswered (json_answer 422 (error_value (codes "lmc") (late_members fault.now))) result }
{
    let answer = match fault {
        LmcFault::TooMany => reason_error(alloc, "lmc", 1)?,
        LmcFault::NotThere => reason_error(alloc, "lmc", 2)?,
        LmcFault::Pay(_) => reason_error(alloc, "lmc", 3)?,
        LmcFault::MassOver(mass) => value_error(alloc, "lmc", 4, u64::from(mass.0))?,
        LmcFault::IndexOver(index) => value_error(alloc, "lmc", 5, index.0.unsigned_abs())?,
        LmcFault::Breaks(rules) => breaking_error(alloc, rules)?,
        LmcFault::NoMemory => reason_error(alloc, "lmc", 7)?,
    };
    Ok(answer)
}

/// The answer where there is no task.
fn trim_error(alloc: Global, fault: TrimFault) -> Result<Answer, PlainError>
    ensures { IsAnswered (json_answer 422 (error_value (codes "trim") (trim_members fault))) result }
{
    let answer = match fault {
        TrimFault::FuelOut(fuel) => value_error(alloc, "trim", 1, u64::from(fuel.0))?,
        TrimFault::Pay(_) => reason_error(alloc, "trim", 2)?,
        TrimFault::LooseName(at) => value_error(alloc, "trim", 3, at as u64)?,
        TrimFault::NoWindow(which) => value_error(alloc, "trim", 4, which as u64)?,
        TrimFault::Task(_) => reason_error(alloc, "trim", 5)?,
        TrimFault::NoMemory => reason_error(alloc, "trim", 6)?,
    };
    Ok(answer)
}

/// The answer to a refusal.
pub fn refused_answer(alloc: Global, refusal: &Refusal) -> Result<Answer, PlainError>
    ensures { IsAnswered (refused_answer refusal.now) result }
{
    match refusal {
        Refusal::Exists => Err(PlainError::Exists),
        Refusal::NoAircraft => Err(PlainError::NoAircraft),
        Refusal::OfficeFull => Err(PlainError::OfficeFull),
        Refusal::NoFlight => Err(PlainError::NoFlight),
        Refusal::Gone => Err(PlainError::Gone),
        Refusal::Stale(edition) => Ok(edition_error(alloc, "stale", *edition)?),
        Refusal::Ahead(edition) => Ok(edition_error(alloc, "ahead", *edition)?),
        Refusal::NotReleased => Err(PlainError::NotReleased),
        Refusal::NoPlanYet => Err(PlainError::NoPlan),
        Refusal::Broken(rules) => Ok(broken_error(alloc, rules)?),
        Refusal::Late(fault) => late_error(alloc, fault),
        Refusal::Trim(fault) => trim_error(alloc, *fault),
        Refusal::OtherTask => Err(PlainError::OtherTask),
        Refusal::Spent => Err(PlainError::Spent),
        Refusal::KeeperFault => Err(PlainError::Keeper),
    }
}
