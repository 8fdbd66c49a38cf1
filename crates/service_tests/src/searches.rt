// Plans by trees over one connection, and tasks.
use crate::cases::{Case, check, joined, served};
use crate::days::{AFTERNOON, AFTERNOON_ANSWERS};
use desk_http::ConnEnd;
use std::alloc::Global;
use std::test::Fail;
use worked_day::{MORNING, MORNING_ANSWERS};

/// A plan by trees is asked for.
const BEST: &str = "\
    POST /flights/XX210-12/best/7 HTTP/1.1\r\n\
    Content-Length: 0\r\n\
    \r\n";

/// The same with one look, and then the release.
const BEST_OF_ONE: &str = "\
    POST /flights/XX210-12/best/7 HTTP/1.1\r\n\
    Content-Length: 11\r\n\
    \r\n\
    {\"looks\":1}\
    POST /flights/XX210-12/release/7 HTTP/1.1\r\n\
    Content-Length: 0\r\n\
    \r\n";

/// Their answers.
const BEST_OF_ONE_ANSWERS: &str = "\
    HTTP/1.1 200 OK\r\n\
    Content-Type: text/plain\r\n\
    Content-Length: 12\r\n\
    \r\n\
    UNDECIDED 1\n\
    HTTP/1.1 422 Unprocessable Entity\r\n\
    Content-Type: application/json\r\n\
    Content-Length: 19\r\n\
    \r\n\
    {\"error\":\"no plan\"}";

/// A container that no position can take, a plan by trees, and the release.
const TOO_HEAVY: &str = "\
    PUT /flights/XX210-12/containers/7 HTTP/1.1\r\n\
    Content-Length: 24\r\n\
    \r\n\
    id,mass\n\
    AKE10001XX,1600\n\
    POST /flights/XX210-12/best/8 HTTP/1.1\r\n\
    Content-Length: 0\r\n\
    \r\n\
    POST /flights/XX210-12/release/8 HTTP/1.1\r\n\
    Content-Length: 0\r\n\
    \r\n";

/// The answer to the container.
const TOO_HEAVY_ANSWER: &str = "\
    HTTP/1.1 200 OK\r\n\
    Content-Type: application/json\r\n\
    Content-Length: 13\r\n\
    \r\n\
    {\"edition\":8}";

/// The answer to the release.
const NO_PLAN: &str = "\
    HTTP/1.1 422 Unprocessable Entity\r\n\
    Content-Type: application/json\r\n\
    Content-Length: 19\r\n\
    \r\n\
    {\"error\":\"no plan\"}";

/// How the answer with a plain text begins.
const TEXT_HEAD: &str = "\
    HTTP/1.1 200 OK\r\n\
    Content-Type: text/plain\r\n\
    Content-Length: ";

/// How the answer to the request for a plan by trees begins: with the plan of the other search.
const PLAN_BY_TREES: &str = "\
    PLAN\n\
    place AKE10001XX 11\n\
    place AKE10002XX 42\n\
    index 50.45000\n\
    distance 0.00000\n\
    CERTIFICATE 3\n\
    best 11 42\n";

/// Requests for plans and tasks that are refused.
const REFUSED: &str = "\
    PUT /flights/XX210-12/best/7 HTTP/1.1\r\n\
    Content-Length: 0\r\n\
    \r\n\
    POST /flights/XX210-12/best/0 HTTP/1.1\r\n\
    Content-Length: 0\r\n\
    \r\n\
    POST /flights/XX210-12/best/7 HTTP/1.1\r\n\
    Content-Length: 11\r\n\
    \r\n\
    {\"looks\":0}\
    POST /flights/XX210-12/best/7 HTTP/1.1\r\n\
    Content-Length: 14\r\n\
    \r\n\
    {\"budget\":500}\
    POST /flights/XX210-13/best/7 HTTP/1.1\r\n\
    Content-Length: 0\r\n\
    \r\n\
    POST /flights/XX210-12/best/6 HTTP/1.1\r\n\
    Content-Length: 0\r\n\
    \r\n\
    POST /flights/XX210-12/best/8 HTTP/1.1\r\n\
    Content-Length: 0\r\n\
    \r\n\
    POST /flights/XX210-12/task/7 HTTP/1.1\r\n\
    Content-Length: 0\r\n\
    \r\n\
    GET /flights/XX210-12/task/7 HTTP/1.1\r\n\
    Content-Length: 2\r\n\
    \r\n\
    {}\
    GET /flights/XX210-12/task/6 HTTP/1.1\r\n\
    Content-Length: 0\r\n\
    \r\n";

/// Their answers.
const REFUSED_ANSWERS: &str = "\
    HTTP/1.1 405 Method Not Allowed\r\n\
    Content-Type: application/json\r\n\
    Content-Length: 18\r\n\
    \r\n\
    {\"error\":\"method\"}\
    HTTP/1.1 400 Bad Request\r\n\
    Content-Type: application/json\r\n\
    Content-Length: 19\r\n\
    \r\n\
    {\"error\":\"edition\"}\
    HTTP/1.1 400 Bad Request\r\n\
    Content-Type: application/json\r\n\
    Content-Length: 16\r\n\
    \r\n\
    {\"error\":\"body\"}\
    HTTP/1.1 400 Bad Request\r\n\
    Content-Type: application/json\r\n\
    Content-Length: 16\r\n\
    \r\n\
    {\"error\":\"body\"}\
    HTTP/1.1 404 Not Found\r\n\
    Content-Type: application/json\r\n\
    Content-Length: 21\r\n\
    \r\n\
    {\"error\":\"no flight\"}\
    HTTP/1.1 409 Conflict\r\n\
    Content-Type: application/json\r\n\
    Content-Length: 28\r\n\
    \r\n\
    {\"error\":\"stale\",\"newest\":7}\
    HTTP/1.1 409 Conflict\r\n\
    Content-Type: application/json\r\n\
    Content-Length: 28\r\n\
    \r\n\
    {\"error\":\"ahead\",\"newest\":7}\
    HTTP/1.1 405 Method Not Allowed\r\n\
    Content-Type: application/json\r\n\
    Content-Length: 18\r\n\
    \r\n\
    {\"error\":\"method\"}\
    HTTP/1.1 400 Bad Request\r\n\
    Content-Type: application/json\r\n\
    Content-Length: 16\r\n\
    \r\n\
    {\"error\":\"body\"}\
    HTTP/1.1 409 Conflict\r\n\
    Content-Type: application/json\r\n\
    Content-Length: 28\r\n\
    \r\n\
    {\"error\":\"stale\",\"newest\":7}";

/// The task of the flight is asked for.
const TASK: &str = "\
    GET /flights/XX210-12/task/7 HTTP/1.1\r\n\
    Content-Length: 0\r\n\
    \r\n";

/// Its answer.
const TASK_ANSWER: &str = "\
    HTTP/1.1 200 OK\r\n\
    Content-Type: text/plain\r\n\
    Content-Length: 295\r\n\
    \r\n\
    TASK 1\n\
    position 11 1 -600 AKE 1500\n\
    position 12 1 -400 AKE 1500\n\
    position 41 4 400 AKE 1500\n\
    position 42 4 600 AKE 1500\n\
    bulk 51 5 900\n\
    combined 2500 11 12\n\
    cumulative aft 41 4500\n\
    item AKE10001XX 1000\n\
    item AKE10002XX 800\n\
    loose 51 320\n\
    base 48.77000\n\
    window -7.06400 10.02000\n\
    ideal 50.00000 51.00000\n\
    END\n";

/// What is written between these texts, without the head of a plain text.
fn body_between<'a>(written: &'a str, before: &str, after: &str) -> Option<&'a str> {
    let rest = written.strip_prefix(before)?;
    let answer = rest.strip_suffix(after)?;
    let (head, body) = answer.split_once("\r\n\r\n")?;
    if head.starts_with(TEXT_HEAD) {
        Some(body)
    } else {
        None
    }
}

/// These texts, one after another.
fn text(alloc: Global, texts: &[&str]) -> Result<String, Fail> {
    Ok(String::from_utf8(joined(alloc, texts, 1)?)?)
}

/// Fails where the connection of a case does not end at the end of its input, or where something else is written to it
/// than these texts, then a plain text that begins so, and then these.
fn check_start(
    rt: &HostRuntime,
    case: Case,
    before: &[&str],
    start: &str,
    after: &[&str],
) -> Result<(), Fail> {
    let (ended, written) = served(rt, case)?;
    let written = String::from_utf8(written)?;
    let before = text(rt.alloc(), before)?;
    let after = text(rt.alloc(), after)?;
    let body = body_between(written.as_str(), before.as_str(), after.as_str()).unwrap_or("");
    if ended == ConnEnd::Ended && body.starts_with(start) && body.ends_with("END\n") {
        return Ok(());
    }
    Err(Fail::new(format_args!("{ended:?} after {written}")))
}

#[test]
fn a_day_planned_by_trees_ends_like_one_planned_within_a_budget(
    rt: HostRuntime,
) -> Result<(), Fail> {
    let day = Case::of(&[MORNING, BEST, AFTERNOON]);
    check_start(
        &rt,
        day,
        &[MORNING_ANSWERS],
        PLAN_BY_TREES,
        &AFTERNOON_ANSWERS,
    )
}

#[test]
fn what_the_looks_do_not_decide_is_not_installed(rt: HostRuntime) -> Result<(), Fail> {
    let case = Case::of(&[MORNING, BEST_OF_ONE]);
    let due = [MORNING_ANSWERS, BEST_OF_ONE_ANSWERS];
    check(&rt, case, ConnEnd::Ended, &due)
}

#[test]
fn it_is_told_that_nothing_fits(rt: HostRuntime) -> Result<(), Fail> {
    let case = Case::of(&[MORNING, TOO_HEAVY]);
    let before = [MORNING_ANSWERS, TOO_HEAVY_ANSWER];
    check_start(&rt, case, &before, "NONE\nCERTIFICATE ", &[NO_PLAN])
}

#[test]
fn plans_by_trees_and_tasks_are_refused_like_others(rt: HostRuntime) -> Result<(), Fail> {
    let case = Case::of(&[MORNING, REFUSED]);
    check(
        &rt,
        case,
        ConnEnd::Ended,
        &[MORNING_ANSWERS, REFUSED_ANSWERS],
    )
}

#[test]
fn a_task_is_told_as_its_text(rt: HostRuntime) -> Result<(), Fail> {
    let case = Case::of(&[MORNING, TASK, TASK]);
    check(
        &rt,
        case,
        ConnEnd::Ended,
        &[MORNING_ANSWERS, TASK_ANSWER, TASK_ANSWER],
    )
}
