//! Answers to requests.

ghost use Rattle.std.specs.Prelude.{◌≡◌, Ok, Some, IsTrue, IfOk};
ghost use Rattle.hold_limits.specs.Problem.{Problem};
ghost use Rattle.flight_history.specs.Asking.{IsWithinLimits};
ghost use Rattle.http_wire.specs.Answer.{is_answered};
ghost use Rattle.desk_answers.specs.Answers.{answered, text_answer};
ghost use Rattle.desk_requests.specs.Within.{IsLawful};
ghost use Rattle.desk_service.specs.declared.searches.Search.{Search};
ghost use Rattle.desk_service.specs.Exchanges.{AnswersInstall, asks_plan, document_of, is_installed};
ghost use Rattle.desk_service.specs.Searches.{Finds, install_of};
ghost use Rattle.desk_service.specs.Service.{Answered, Planned};

use crate::counter::Counter;
use crate::searches::{Found, FoundPlan, Search, find_plan};
use desk_answers::{Answer, Document, PlainError, answer_to};
use desk_requests::Asked;
use flight_history::{Reply, Request, What};
use flight_state::FlightKey;
use hold_limits::Task;
use keeper::Bytes;
use placer::Placing;
use std::alloc::Global;

/// The document that a request asks for; a release issues the loadsheet.
fn document_of(request: &Request) -> Document
    ensures { result ≡ document_of request.now }
{
    match request {
        Request::Show {
            what: What::Ldm,
            ..
        } => Document::LoadMessage,
        Request::Show {
            what: What::Cpm,
            ..
        } => Document::ContainerMessage,
        _ => Document::Loadsheet,
    }
}

/// Answers a request that makes one entry.
fn answer_entry<Rt, C: Counter<Rt>>(
    rt: &Rt,
    alloc: Global,
    counter: &mut C,
    request: Request,
) -> Result<Answer, PlainError>
    requires within { IsWithinLimits request }
    ensures answered { Answered (C.setting counter.old) (C.desk counter.old) (C.full counter.old) (C.full counter.new)
        (Ok (Asked.Entry request)) (answered result) (C.seen counter.old) (C.seen counter.new) }
    ensures known { IfOk result (λ answer. IsTrue (is_answered answer.status)) }
    ensures setting { C.setting counter.new ≡ C.setting counter.old }
    ensures desk { C.desk counter.new ≡ C.desk counter.old }
    ensures full { C.full counter.old → C.full counter.new }
    ensures follows { C.follows counter.old counter.new }
{
    let document = document_of(&request);
    match counter.call(rt, alloc, request) {
        Ok(reply) => answer_to(alloc, document, reply),
        Err(_) => Err(PlainError::Full),
    }
}

/// Whether the reply says that a plan was installed.
fn is_installed(reply: &Reply) -> bool
    ensures { result ≡ is_installed reply.now }
{
    matches!(reply, Reply::Edition(_))
}

/// Answers the reply to a plan that was to be installed, whose text is this.
fn answer_install(alloc: Global, reply: Reply, text: Bytes) -> Result<Answer, PlainError>
    ensures answer { AnswersInstall (text_answer text) reply (answered result) }
    ensures known { IfOk result (λ answer. IsTrue (is_answered answer.status)) }
{
    if is_installed(&reply) {
        return Ok(Answer::text(text));
    }
    answer_to(alloc, Document::Loadsheet, reply)
}

/// The request that installs a plan.
fn request_to_install(key: FlightKey, edition: u32, plan: FoundPlan) -> Request
    ensures request { result ≡ install_of key edition plan }
    ensures within { IsWithinLimits result }
{
    match plan {
        FoundPlan::Certified(plan) => Request::Install { key, edition, plan },
        FoundPlan::Best(plan) => Request::InstallBest { key, edition, plan },
    }
}

/// Asks to install a plan, whose text is ready. So nothing can run out of memory once it is installed.
fn install<Rt, C: Counter<Rt>>(
    rt: &Rt,
    alloc: Global,
    counter: &mut C,
    key: FlightKey,
    edition: u32,
    plan: FoundPlan,
    text: Bytes,
) -> Result<Answer, PlainError>
    ensures planned { (search : Search) (task : Problem) → Finds search task (Some plan) text
        → Planned (C.setting counter.old) (C.desk counter.old) (C.full counter.new) key edition search task
        (answered result) (C.seen counter.old) (C.seen counter.new) }
    ensures known { IfOk result (λ answer. IsTrue (is_answered answer.status)) }
    ensures setting { C.setting counter.new ≡ C.setting counter.old }
    ensures desk { C.desk counter.new ≡ C.desk counter.old }
    ensures full { C.full counter.old → C.full counter.new }
    ensures follows { C.follows counter.old counter.new }
{
    match counter.call(rt, alloc, request_to_install(key, edition, plan)) {
        Ok(reply) => answer_install(alloc, reply, text),
        Err(_) => Err(PlainError::Full),
    }
}

/// Answers a request for a plan whose task was taken.
fn answer_task<Rt, C: Counter<Rt>, P: Placing>(
    rt: &Rt,
    alloc: Global,
    counter: &mut C,
    placing: &P,
    key: FlightKey,
    edition: u32,
    search: Search,
    task: Task,
) -> Result<Answer, PlainError>
    ensures planned { Planned (C.setting counter.old) (C.desk counter.old) (C.full counter.new) key edition search task
        (answered result) (C.seen counter.old) (C.seen counter.new) }
    ensures known { IfOk result (λ answer. IsTrue (is_answered answer.status)) }
    ensures setting { C.setting counter.new ≡ C.setting counter.old }
    ensures desk { C.desk counter.new ≡ C.desk counter.old }
    ensures full { C.full counter.old → C.full counter.new }
    ensures follows { C.follows counter.old counter.new }
{
    let Found { plan, text } = find_plan(alloc, task, search, placing)?;
    match plan {
        Some(plan) => install(rt, alloc, counter, key, edition, plan, text),
        None => Ok(Answer::text(text)),
    }
}

/// Answers a request for a plan: its task is taken, then a plan is searched for, and then the plan is installed.
fn answer_plan<Rt, C: Counter<Rt>, P: Placing>(
    rt: &Rt,
    alloc: Global,
    counter: &mut C,
    placing: &P,
    key: FlightKey,
    edition: u32,
    search: Search,
) -> Result<Answer, PlainError>
    ensures answered { Answered (C.setting counter.old) (C.desk counter.old) (C.full counter.old) (C.full counter.new)
        (Ok (asks_plan key edition search)) (answered result) (C.seen counter.old) (C.seen counter.new) }
    ensures known { IfOk result (λ answer. IsTrue (is_answered answer.status)) }
    ensures setting { C.setting counter.new ≡ C.setting counter.old }
    ensures desk { C.desk counter.new ≡ C.desk counter.old }
    ensures full { C.full counter.old → C.full counter.new }
    ensures follows { C.follows counter.old counter.new }
{
    let take = Request::Take { key, edition };
    match counter.call(rt, alloc, take) {
        Ok(Reply::Task(task)) => {
            answer_task(rt, alloc, counter, placing, key, edition, search, task)
        }
        Ok(reply) => answer_to(alloc, Document::Loadsheet, reply),
        Err(_) => Err(PlainError::Full),
    }
}

/// Answers what a request asks.
fn answer_one<Rt, C: Counter<Rt>, P: Placing>(
    rt: &Rt,
    alloc: Global,
    counter: &mut C,
    placing: &P,
    asked: Asked,
) -> Result<Answer, PlainError>
    requires lawful { IsLawful asked }
    ensures answered { Answered (C.setting counter.old) (C.desk counter.old) (C.full counter.old) (C.full counter.new)
        (Ok asked) (answered result) (C.seen counter.old) (C.seen counter.new) }
    ensures known { IfOk result (λ answer. IsTrue (is_answered answer.status)) }
    ensures setting { C.setting counter.new ≡ C.setting counter.old }
    ensures desk { C.desk counter.new ≡ C.desk counter.old }
    ensures full { C.full counter.old → C.full counter.new }
    ensures follows { C.follows counter.old counter.new }
{
    match asked {
        Asked::Entry(request) => answer_entry(rt, alloc, counter, request),
        Asked::Plan {
            key,
            edition,
            budget,
        } => {
            let search = Search::Within(budget);
            answer_plan(rt, alloc, counter, placing, key, edition, search)
        }
        Asked::Best {
            key,
            edition,
            looks,
        } => {
            let search = Search::ByTrees(looks);
            answer_plan(rt, alloc, counter, placing, key, edition, search)
        }
    }
}

/// Answers what a request asks, or why it asks nothing. No error of the office is an error here: it is the answer.
pub fn answer_asked<Rt, C: Counter<Rt>, P: Placing>(
    rt: &Rt,
    alloc: Global,
    counter: &mut C,
    placing: &P,
    asked: Result<Asked, PlainError>,
) -> Result<Answer, PlainError>
    requires lawful { IfOk asked IsLawful }
    ensures answered { Answered (C.setting counter.old) (C.desk counter.old) (C.full counter.old) (C.full counter.new)
        asked (answered result) (C.seen counter.old) (C.seen counter.new) }
    ensures known { IfOk result (λ answer. IsTrue (is_answered answer.status)) }
    ensures setting { C.setting counter.new ≡ C.setting counter.old }
    ensures desk { C.desk counter.new ≡ C.desk counter.old }
    ensures full { C.full counter.old → C.full counter.new }
    ensures follows { C.follows counter.old counter.new }
{
    match asked {
        Ok(asked) => answer_one(rt, alloc, counter, placing, asked),
        Err(error) => Err(error),
    }
}
