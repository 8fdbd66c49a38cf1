// Answers to replies and refusals, each as a text: its status, whether it is JSON, and its body.
use arrayvec::ArrayVec;
use base_words::NoMemory;
use desk_answers::{Document, PlainError, answer_to};
use flight_history::{Refusal, Reply};
use flight_state::FlightKey;
use keeper::Bytes;
use last_minute::LmcFault;
use mass_units::{Kg, Ticks};
use problem_text::read_task;
use std::alloc::Global;
use std::str;
use std::test::Fail;
use trim::{Rule, Rules, TrimFault};

/// All errors in one word.
const ERRORS: [PlainError; 16] = [
    PlainError::NoRoute,
    PlainError::Method,
    PlainError::Edition,
    PlainError::Body,
    PlainError::Full,
    PlainError::Exists,
    PlainError::NoAircraft,
    PlainError::OfficeFull,
    PlainError::NoFlight,
    PlainError::Gone,
    PlainError::NotReleased,
    PlainError::NoPlan,
    PlainError::OtherTask,
    PlainError::Spent,
    PlainError::Keeper,
    PlainError::Memory,
];

/// Their statuses and bodies.
const ERROR_ANSWERS: &str = r#"404 {"error":"no route"}
405 {"error":"method"}
400 {"error":"edition"}
400 {"error":"body"}
507 {"error":"full"}
422 {"error":"exists"}
422 {"error":"no aircraft"}
422 {"error":"office full"}
404 {"error":"no flight"}
422 {"error":"gone"}
422 {"error":"not released"}
422 {"error":"no plan"}
422 {"error":"other task"}
422 {"error":"spent"}
503 {"error":"keeper"}
500 {"error":"memory"}
"#;

#[test]
fn errors_have_their_words(rt: HostRuntime) -> Result<(), Fail> {
    let mut text = String::new(rt.alloc());
    for error in ERRORS {
        writeln!(text, "{} {}", error.status(), str::from_utf8(error.body())?)?;
    }
    assert_eq!(rt; text.as_str(), ERROR_ANSWERS);
    Ok(())
}

/// Fails where the reply has another answer. The answer is a status, whether its body is JSON, and the body.
fn check(alloc: Global, reply: Reply, due: &str) -> Result<(), Fail> {
    let answer = answer_to(alloc, Document::Loadsheet, reply)?;
    let body = str::from_utf8(answer.body.as_slice())?;
    let text = format!(in alloc; "{} {} {body}", answer.status, answer.json)?;
    if text.as_str() == due {
        return Ok(());
    }
    Err(Fail::new(format_args!("{text} in place of {due}")))
}

/// As above, of a refusal.
fn check_refusal(alloc: Global, refusal: Refusal, due: &str) -> Result<(), Fail> {
    check(alloc, Reply::Refused(refusal), due)
}

fn rules() -> Rules {
    let mut rules = ArrayVec::new();
    rules.push(Rule::TakeOff);
    rules.push(Rule::Lateral);
    rules
}

#[test]
fn refusals_have_their_values(rt: HostRuntime) -> Result<(), Fail> {
    let alloc = rt.alloc();
    check_refusal(
        alloc,
        Refusal::Stale(7),
        r#"409 true {"error":"stale","newest":7}"#,
    )?;
    check_refusal(
        alloc,
        Refusal::Ahead(3),
        r#"409 true {"error":"ahead","newest":3}"#,
    )?;
    check_refusal(
        alloc,
        Refusal::Broken(rules()),
        r#"422 true {"error":"broken","rules":["TAKE OFF","LATERAL"]}"#,
    )?;
    check_refusal(
        alloc,
        Refusal::Trim(TrimFault::NoWindow(2)),
        r#"422 true {"error":"trim","reason":4,"value":2}"#,
    )
}

#[test]
fn refusals_of_late_changes_have_their_values(rt: HostRuntime) -> Result<(), Fail> {
    let alloc = rt.alloc();
    check_refusal(
        alloc,
        Refusal::Late(LmcFault::NotThere),
        r#"422 true {"error":"lmc","reason":2}"#,
    )?;
    check_refusal(
        alloc,
        Refusal::Late(LmcFault::MassOver(Kg(501))),
        r#"422 true {"error":"lmc","reason":4,"value":501}"#,
    )?;
    check_refusal(
        alloc,
        Refusal::Late(LmcFault::IndexOver(Ticks(500_001))),
        r#"422 true {"error":"lmc","reason":5,"value":500001}"#,
    )?;
    check_refusal(
        alloc,
        Refusal::Late(LmcFault::Breaks(rules())),
        r#"422 true {"error":"lmc","reason":6,"rules":["TAKE OFF","LATERAL"]}"#,
    )
}

#[test]
fn replies_are_answered(rt: HostRuntime) -> Result<(), Fail> {
    let alloc = rt.alloc();
    let key = FlightKey::read(b"XX210-12").ok_or(NoMemory)?;
    check(
        alloc,
        Reply::Opened(key),
        r#"201 true {"edition":1,"key":"XX210-12"}"#,
    )?;
    check(alloc, Reply::Edition(12), r#"200 true {"edition":12}"#)?;
    let row = Bytes::from(b"AAA".to_vec(alloc)?);
    check(alloc, Reply::Row(row), "200 false AAA")
}

/// A task as its text.
const TASK: &str = "TASK 1
position 11 1 -600 AKE 1500
item AKE10001XX 1000
base 50.00000
window -100.00000 100.00000
ideal 50.00000 50.00000
END
";

#[test]
fn a_task_is_answered_as_its_text(rt: HostRuntime) -> Result<(), Fail> {
    let alloc = rt.alloc();
    let task = read_task(alloc, TASK.as_bytes())?;
    let expected = format!(in alloc; "200 false {TASK}")?;
    check(alloc, Reply::Task(task), expected.as_str())
}
