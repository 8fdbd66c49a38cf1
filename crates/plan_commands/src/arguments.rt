//! The arguments of the program.

ghost use Rattle.std.specs.Prelude.{◌≡◌, ◌≢◌, ◌≤◌, ◌<◌, ◌^◌, ◌↔◌, ◌∷◌, [], All, false, IsTrue, IfSome, IfNone, ℕ, codes, string_bytes};
ghost use Rattle.mass_units.specs.Spelling.{number_text};
ghost use Rattle.plan_commands.specs.Arguments.{arguments_of, BeginsWithMinus, FlightNames, words_of, HaveStations, Job, AskFor, IsCommand, AreInvalid};
ghost use Rattle.plan_commands.specs.Arguments.Job.{transit};
ghost use Rattle.plan_commands.specs.Commands.{job_of};

use flight_state::Station;
use mass_units::{read_long_number, read_number};
use plan_answers::{GREATEST_BUDGET, GREATEST_PRICED_BUDGET, USUAL_BUDGET};
use transit_answers::TransitQuestion;

/// How many choices a search by trees looks at if the arguments do not say it.
const USUAL_LOOKS: u32 = 20_000;

const GREATEST_LOOKS: u32 = 1_000_000;

/// The budget of a search over several sectors if the arguments name none.
const USUAL_STOP_BUDGET: u32 = 2_000;

/// The greatest budget of a search over several sectors.
const GREATEST_STOP_BUDGET: u32 = 5_000;

/// The files and the stations of a flight in transit.
#[derive(Clone, Copy, Debug)]
pub struct TransitNames<'a> {
    pub task: &'a str,
    /// The file with the inbound container message.
    pub cpm: &'a str,
    /// The file with the inbound load message.
    pub ldm: &'a str,
    /// Where the flight is.
    pub station: Station,
    /// Where it goes on to.
    pub next: Station,
}

/// What the arguments ask for.
#[derive(Clone, Copy, Debug)]
pub enum Command<'a> {
    /// `place TASK` or `place TASK BUDGET`: the best placement of the task in a file. The budget is how many near
    /// prefixes the search may look at.
    Place {
        task: &'a str,
        budget: u32,
    },
    /// `check TASK CERTIFICATE`: whether the certificate in a file is good for the task in another.
    Check {
        task: &'a str,
        certificate: &'a str,
    },
    /// `best TASK` or `best TASK LOOKS`: the best placement of the task in a file, by a search that looks at so many
    /// choices at most, and by the best-first search where these do not decide it.
    Best {
        task: &'a str,
        looks: u32,
    },
    /// `why TASK` or `why TASK LOOKS`: why the task in a file has no plan, by the search of `best`, which looks at so
    /// many choices at most for each question.
    Why {
        task: &'a str,
        looks: u32,
    },
    /// `bestcheck TASK CERTIFICATE`: whether the certificate of either kind in a file is good for the task in another.
    CheckAny {
        task: &'a str,
        certificate: &'a str,
    },
    /// `priced TASK` or `priced TASK BUDGET`: the best placement of the task in a file, by a search with prices. The
    /// budget is how many price-near prefixes it may look at.
    Priced {
        task: &'a str,
        budget: u32,
    },
    /// `pricedcheck TASK CERTIFICATE`: whether the certificate with prices in a file is good for the task in another.
    CheckPriced {
        task: &'a str,
        certificate: &'a str,
    },
    /// `stops FILE` or `stops FILE BUDGET`: the best placement of the load over several sectors in a file. The budget
    /// is how many near prefixes the search may look at.
    Stops {
        file: &'a str,
        budget: u32,
    },
    /// `transit TASK CPM LDM STATION NEXT` or the same with a budget: the best placement around what stays aboard, and
    /// the message with which the flight goes on. `transittask TASK CPM LDM STATION NEXT`: the task of that placement.
    Transit {
        names: TransitNames<'a>,
        question: TransitQuestion,
    },
    /// `gen NUMBER`: the best placement of the load that is made from the number.
    Generate {
        number: u32,
    },
}

fn begins_with_minus(argument: &str) -> bool
    ensures { IsTrue result ↔ BeginsWithMinus argument.now }
{
    argument.as_bytes().first() == Some(&b'-')
}

/// Whether no argument begins with a minus.
pub fn are_plain(arguments: &[String]) -> bool
    ensures { IsTrue result ↔ All (λ argument. BeginsWithMinus (string_bytes argument) → ⊥) arguments.now }
{
    arguments
        .iter()
        .all(|argument| !begins_with_minus(argument.as_str()))
}

/// How much a search may look at, where this is the most.
fn effort_from(argument: &str, most: u32) -> Option<u32>
    requires { most < 1000000000 }
    ensures some { IfSome result (λ n. (argument.now ≡ number_text n) × (1 ≤ n) × (n ≤ most)) }
    ensures none { IfNone result ((n : ℕ) → 1 ≤ n → n ≤ most → argument.now ≡ number_text n → ⊥) }
{
    read_number(argument.as_bytes()).filter(|number| (1..=most).contains(number))
}

fn number_from(argument: &str) -> Option<u32>
    ensures some { IfSome result (λ n. (argument.now ≡ number_text n) × (n < 2 ^ 32)) }
    ensures none { IfNone result ((n : ℕ) → n < 2 ^ 32 → argument.now ≡ number_text n → ⊥) }
{
    read_long_number(argument.as_bytes())
}

/// `place TASK`, `best TASK`, `why TASK`, `priced TASK`, `stops FILE`, or `gen NUMBER`.
fn with_one_operand<'a>(name: &str, operand: &'a str) -> Option<Command<'a>>
    ensures some { IfSome result (λ command. AskFor (name.now ∷ operand.now ∷ []) (job_of command)) }
    ensures none { IfNone result ((job : Job) → AskFor (name.now ∷ operand.now ∷ []) job → ⊥) }
{
    if name == "place" {
        return Some(Command::Place {
            task: operand,
            budget: USUAL_BUDGET,
        });
    }
    if name == "best" {
        return Some(Command::Best {
            task: operand,
            looks: USUAL_LOOKS,
        });
    }
    if name == "why" {
        return Some(Command::Why {
            task: operand,
            looks: USUAL_LOOKS,
        });
    }
    if name == "priced" {
        return Some(Command::Priced {
            task: operand,
            budget: GREATEST_PRICED_BUDGET,
        });
    }
    if name == "stops" {
        return Some(Command::Stops {
            file: operand,
            budget: USUAL_STOP_BUDGET,
        });
    }
    if name == "gen" {
        let number = number_from(operand)?;
        return Some(Command::Generate { number });
    }
    None
}

/// `place TASK BUDGET`, `best TASK LOOKS`, `why TASK LOOKS`, `priced TASK BUDGET`, `stops FILE BUDGET`, or a check of a
/// certificate in a file.
fn with_two_operands<'a>(name: &str, task: &'a str, other: &'a str) -> Option<Command<'a>>
    ensures some { IfSome result
        (λ command. AskFor (name.now ∷ task.now ∷ other.now ∷ []) (job_of command)) }
    ensures none { IfNone result ((job : Job) → AskFor (name.now ∷ task.now ∷ other.now ∷ []) job → ⊥) }
{
    if name == "place" {
        let budget = effort_from(other, GREATEST_BUDGET)?;
        return Some(Command::Place { task, budget });
    }
    if name == "best" {
        let looks = effort_from(other, GREATEST_LOOKS)?;
        return Some(Command::Best { task, looks });
    }
    if name == "why" {
        let looks = effort_from(other, GREATEST_LOOKS)?;
        return Some(Command::Why { task, looks });
    }
    if name == "priced" {
        let budget = effort_from(other, GREATEST_PRICED_BUDGET)?;
        return Some(Command::Priced { task, budget });
    }
    if name == "stops" {
        let budget = effort_from(other, GREATEST_STOP_BUDGET)?;
        return Some(Command::Stops { file: task, budget });
    }
    let certificate = other;
    if name == "check" {
        return Some(Command::Check { task, certificate });
    }
    if name == "bestcheck" {
        return Some(Command::CheckAny { task, certificate });
    }
    if name == "pricedcheck" {
        return Some(Command::CheckPriced { task, certificate });
    }
    None
}

/// What the name asks about a flight in transit.
fn question_of(name: &str) -> Option<TransitQuestion>
    ensures some { IfSome result (λ question. (names : FlightNames) → HaveStations names
        → AskFor (name.now ∷ words_of names) (transit names question)) }
    ensures none { IfNone result ((name.now ≢ codes "transit") × (name.now ≢ codes "transittask")) }
{
    if name == "transit" {
        return Some(TransitQuestion::BestPlan {
            budget: USUAL_BUDGET,
        });
    }
    if name == "transittask" {
        return Some(TransitQuestion::TaskAround);
    }
    None
}

/// `transit TASK CPM LDM STATION NEXT` or `transittask TASK CPM LDM STATION NEXT`.
fn with_five_operands<'a>(
    name: &str,
    task: &'a str,
    cpm: &'a str,
    ldm: &'a str,
    station: &str,
    next: &str,
) -> Option<Command<'a>>
    ensures some { IfSome result (λ command.
        AskFor (name.now ∷ task.now ∷ cpm.now ∷ ldm.now ∷ station.now ∷ next.now ∷ []) (job_of command)) }
    ensures none { IfNone result ((job : Job)
        → AskFor (name.now ∷ task.now ∷ cpm.now ∷ ldm.now ∷ station.now ∷ next.now ∷ []) job → ⊥) }
{
    let question = question_of(name)?;
    let station = Station::read(station.as_bytes())?;
    let next = Station::read(next.as_bytes())?;
    let names = TransitNames {
        task,
        cpm,
        ldm,
        station,
        next,
    };
    Some(Command::Transit { names, question })
}

/// `transit TASK CPM LDM STATION NEXT BUDGET`.
fn with_six_operands<'a>(
    name: &str,
    task: &'a str,
    cpm: &'a str,
    ldm: &'a str,
    station: &str,
    next: &str,
    budget: &str,
) -> Option<Command<'a>>
    ensures some { IfSome result (λ command.
        AskFor (name.now ∷ task.now ∷ cpm.now ∷ ldm.now ∷ station.now ∷ next.now ∷ budget.now ∷ []) (job_of command)) }
    ensures none { IfNone result ((job : Job)
        → AskFor (name.now ∷ task.now ∷ cpm.now ∷ ldm.now ∷ station.now ∷ next.now ∷ budget.now ∷ []) job → ⊥) }
{
    if name != "transit" {
        return None;
    }
    let station = Station::read(station.as_bytes())?;
    let next = Station::read(next.as_bytes())?;
    let budget = effort_from(budget, GREATEST_BUDGET)?;
    let names = TransitNames {
        task,
        cpm,
        ldm,
        station,
        next,
    };
    let question = TransitQuestion::BestPlan { budget };
    Some(Command::Transit { names, question })
}

fn form_of(arguments: &[String]) -> Option<Command<'_>>
    ensures some { IfSome result (λ command. AskFor (arguments_of arguments.now) (job_of command)) }
    ensures none { IfNone result ((job : Job) → AskFor (arguments_of arguments.now) job → ⊥) }
{
    match arguments {
        [name, operand] => with_one_operand(name.as_str(), operand.as_str()),
        [name, task, other] => with_two_operands(name.as_str(), task.as_str(), other.as_str()),
        [name, task, cpm, ldm, station, next] => with_five_operands(
            name.as_str(),
            task.as_str(),
            cpm.as_str(),
            ldm.as_str(),
            station.as_str(),
            next.as_str(),
        ),
        [name, task, cpm, ldm, station, next, budget] => with_six_operands(
            name.as_str(),
            task.as_str(),
            cpm.as_str(),
            ldm.as_str(),
            station.as_str(),
            next.as_str(),
            budget.as_str(),
        ),
        _ => None,
    }
}

/// What the arguments ask for. None exactly if they are invalid.
pub fn command_of(arguments: &[String]) -> Option<Command<'_>>
    ensures some { IfSome result (λ command. IsCommand (arguments_of arguments.now) (job_of command)) }
    ensures none { IfNone result (AreInvalid (arguments_of arguments.now)) }
{
    if !are_plain(arguments) {
        return None;
    }
    form_of(arguments)
}
