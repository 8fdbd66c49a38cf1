// The worked day over one connection: requests, each with its answer.
use crate::cases::{Case, check, joined, served, served_on};
use base_words::NoMemory;
use desk_http::ConnEnd;
use http_wire::Refusal;
use std::alloc::Global;
use std::test::Fail;
use worked_day::{CPM, FULL, LDM, LOADSHEET, MORNING, MORNING_ANSWERS, PLAN, ROW};

/// The answer to the request for a plan.
const PLAN_ANSWER: &str = "\
    HTTP/1.1 200 OK\r\n\
    Content-Type: text/plain\r\n\
    Content-Length: 138\r\n\
    \r\n\
    PLAN\n\
    place AKE10001XX 11\n\
    place AKE10002XX 42\n\
    index 50.45000\n\
    distance 0.00000\n\
    CERTIFICATE 1\n\
    best 11 42\n\
    cut 12\n\
    cut 41\n\
    cut 42\n\
    expanded 2\n\
    END\n";

/// Requests that are refused before their turn.
const REFUSED: &str = "\
    GET /flight HTTP/1.1\r\n\
    Content-Length: 0\r\n\
    \r\n\
    PUT /flights HTTP/1.1\r\n\
    Content-Length: 0\r\n\
    \r\n\
    PUT /flights/XX210-12/fuel/0 HTTP/1.1\r\n\
    Content-Length: 0\r\n\
    \r\n\
    PUT /flights/XX210-12/fuel/1 HTTP/1.1\r\n\
    Content-Length: 2\r\n\
    \r\n\
    {}GET /flights/xx210-12 HTTP/1.1\r\n\
    Content-Length: 0\r\n\
    \r\n";

/// Their answers.
const REFUSED_ANSWERS: &str = "\
    HTTP/1.1 404 Not Found\r\n\
    Content-Type: application/json\r\n\
    Content-Length: 20\r\n\
    \r\n\
    {\"error\":\"no route\"}HTTP/1.1 405 Method Not Allowed\r\n\
    Content-Type: application/json\r\n\
    Content-Length: 18\r\n\
    \r\n\
    {\"error\":\"method\"}HTTP/1.1 400 Bad Request\r\n\
    Content-Type: application/json\r\n\
    Content-Length: 19\r\n\
    \r\n\
    {\"error\":\"edition\"}HTTP/1.1 400 Bad Request\r\n\
    Content-Type: application/json\r\n\
    Content-Length: 16\r\n\
    \r\n\
    {\"error\":\"body\"}HTTP/1.1 404 Not Found\r\n\
    Content-Type: application/json\r\n\
    Content-Length: 21\r\n\
    \r\n\
    {\"error\":\"no flight\"}";

/// Requests that are refused at the last figures, and a plan with a budget of 1.
const ODD: &str = "\
    GET /flights/XX210-13 HTTP/1.1\r\n\
    Content-Length: 0\r\n\
    \r\n\
    PUT /flights/XX210-12/fuel/6 HTTP/1.1\r\n\
    Content-Length: 39\r\n\
    \r\n\
    {\"taxi\":200,\"takeoff\":9000,\"trip\":6000}PUT /flights/XX210-12/fuel/8 HTTP/1.1\r\n\
    Content-Length: 39\r\n\
    \r\n\
    {\"taxi\":200,\"takeoff\":9000,\"trip\":6000}GET /flights/XX210-12/sheet HTTP/1.1\r\n\
    Content-Length: 0\r\n\
    \r\n\
    POST /flights/XX210-12/plan/8 HTTP/1.1\r\n\
    Content-Length: 0\r\n\
    \r\n\
    POST /flights/XX210-12/plan/7 HTTP/1.1\r\n\
    Content-Length: 12\r\n\
    \r\n\
    {\"budget\":1}";

/// Their answers.
const ODD_ANSWERS: &str = "\
    HTTP/1.1 404 Not Found\r\n\
    Content-Type: application/json\r\n\
    Content-Length: 21\r\n\
    \r\n\
    {\"error\":\"no flight\"}HTTP/1.1 409 Conflict\r\n\
    Content-Type: application/json\r\n\
    Content-Length: 28\r\n\
    \r\n\
    {\"error\":\"stale\",\"newest\":7}HTTP/1.1 409 Conflict\r\n\
    Content-Type: application/json\r\n\
    Content-Length: 28\r\n\
    \r\n\
    {\"error\":\"ahead\",\"newest\":7}HTTP/1.1 422 Unprocessable Entity\r\n\
    Content-Type: application/json\r\n\
    Content-Length: 24\r\n\
    \r\n\
    {\"error\":\"not released\"}HTTP/1.1 409 Conflict\r\n\
    Content-Type: application/json\r\n\
    Content-Length: 28\r\n\
    \r\n\
    {\"error\":\"ahead\",\"newest\":7}HTTP/1.1 200 OK\r\n\
    Content-Type: text/plain\r\n\
    Content-Length: 9\r\n\
    \r\n\
    BUDGET 1\n";

/// From the release to the departure.
pub const AFTERNOON: &str = "\
    POST /flights/XX210-12/release/7 HTTP/1.1\r\n\
    Content-Length: 0\r\n\
    \r\n\
    GET /flights/XX210-12/sheet HTTP/1.1\r\n\
    Content-Length: 0\r\n\
    \r\n\
    GET /flights/XX210-12/ldm HTTP/1.1\r\n\
    Content-Length: 0\r\n\
    \r\n\
    GET /flights/XX210-12/cpm HTTP/1.1\r\n\
    Content-Length: 0\r\n\
    \r\n\
    GET /flights/XX210-12 HTTP/1.1\r\n\
    Content-Length: 0\r\n\
    \r\n\
    POST /flights/XX210-12/depart/7 HTTP/1.1\r\n\
    Content-Length: 0\r\n\
    \r\n\
    PUT /flights/XX210-12/fuel/7 HTTP/1.1\r\n\
    Content-Length: 39\r\n\
    \r\n\
    {\"taxi\":200,\"takeoff\":9000,\"trip\":6000}";

/// What stands before the loadsheet.
const LOADSHEET_HEAD: &str = "\
    HTTP/1.1 200 OK\r\n\
    Content-Type: text/plain\r\n\
    Content-Length: 370\r\n\
    \r\n";

/// What stands before the load message.
const LDM_HEAD: &str = "\
    HTTP/1.1 200 OK\r\n\
    Content-Type: text/plain\r\n\
    Content-Length: 75\r\n\
    \r\n";

/// What stands before the container message.
const CPM_HEAD: &str = "\
    HTTP/1.1 200 OK\r\n\
    Content-Type: text/plain\r\n\
    Content-Length: 95\r\n\
    \r\n";

/// What stands before the row.
const ROW_HEAD: &str = "\
    HTTP/1.1 200 OK\r\n\
    Content-Type: text/plain\r\n\
    Content-Length: 238\r\n\
    \r\n";

/// The answers to the departure, and to what is asked behind it.
const DEPARTED: &str = "\
    HTTP/1.1 200 OK\r\n\
    Content-Type: application/json\r\n\
    Content-Length: 13\r\n\
    \r\n\
    {\"edition\":7}\
    HTTP/1.1 422 Unprocessable Entity\r\n\
    Content-Type: application/json\r\n\
    Content-Length: 16\r\n\
    \r\n\
    {\"error\":\"gone\"}";

/// The answers to the afternoon.
pub const AFTERNOON_ANSWERS: [&str; 11] = [
    LOADSHEET_HEAD,
    LOADSHEET,
    LOADSHEET_HEAD,
    LOADSHEET,
    LDM_HEAD,
    LDM,
    CPM_HEAD,
    CPM,
    ROW_HEAD,
    ROW,
    DEPARTED,
];

/// Four requests, the third of which is made twice.
const AGAIN: &str = "\
    POST /flights HTTP/1.1\r\n\
    Content-Length: 85\r\n\
    \r\n\
    {\"flight\":\"XX210\",\"day\":12,\"registration\":\"DAIAB\",\"origin\":\"FRA\",\"destination\":\"ARN\"}PUT /flights/XX210-12/dry/1 HTTP/1.1\r\n\
    Content-Length: 55\r\n\
    \r\n\
    {\"mass\":42000,\"index\":\"50.00000\",\"cockpit\":2,\"cabin\":4}PUT /flights/XX210-12/fuel/2 HTTP/1.1\r\n\
    Content-Length: 39\r\n\
    \r\n\
    {\"taxi\":200,\"takeoff\":9000,\"trip\":6000}PUT /flights/XX210-12/fuel/2 HTTP/1.1\r\n\
    Content-Length: 39\r\n\
    \r\n\
    {\"taxi\":200,\"takeoff\":9000,\"trip\":6000}PUT /flights/XX210-12/limits/3 HTTP/1.1\r\n\
    Content-Length: 33\r\n\
    \r\n\
    {\"takeoff\":73500,\"landing\":66000}";

/// Their answers, where the third commit fails.
const AGAIN_ANSWERS: &str = "\
    HTTP/1.1 201 Created\r\n\
    Content-Type: application/json\r\n\
    Content-Length: 30\r\n\
    \r\n\
    {\"edition\":1,\"key\":\"XX210-12\"}HTTP/1.1 200 OK\r\n\
    Content-Type: application/json\r\n\
    Content-Length: 13\r\n\
    \r\n\
    {\"edition\":2}HTTP/1.1 503 Service Unavailable\r\n\
    Content-Type: application/json\r\n\
    Content-Length: 18\r\n\
    \r\n\
    {\"error\":\"keeper\"}HTTP/1.1 200 OK\r\n\
    Content-Type: application/json\r\n\
    Content-Length: 13\r\n\
    \r\n\
    {\"edition\":3}HTTP/1.1 200 OK\r\n\
    Content-Type: application/json\r\n\
    Content-Length: 13\r\n\
    \r\n\
    {\"edition\":4}";

/// The row of the flight is asked for.
const SHOW: &str = "\
    GET /flights/XX210-12 HTTP/1.1\r\n\
    Content-Length: 0\r\n\
    \r\n";

/// No route.
const NO_ROUTE: &str = "\
    GET /flight HTTP/1.1\r\n\
    Content-Length: 0\r\n\
    \r\n";

/// Its answer.
const NO_ROUTE_ANSWER: &str = "\
    HTTP/1.1 404 Not Found\r\n\
    Content-Type: application/json\r\n\
    Content-Length: 20\r\n\
    \r\n\
    {\"error\":\"no route\"}";

/// Its answer, where the connection closes.
const LAST_ANSWER: &str = "\
    HTTP/1.1 404 Not Found\r\n\
    Content-Type: application/json\r\n\
    Content-Length: 20\r\n\
    Connection: close\r\n\
    \r\n\
    {\"error\":\"no route\"}";

/// The head of a request whose body has the greatest length.
const NESTED_HEAD: &str = "\
    POST /flights HTTP/1.1\r\n\
    Content-Length: 16384\r\n\
    \r\n";

/// The answer to a body that is not in its form.
const BODY_ANSWER: &str = "\
    HTTP/1.1 400 Bad Request\r\n\
    Content-Type: application/json\r\n\
    Content-Length: 16\r\n\
    \r\n\
    {\"error\":\"body\"}";

/// No route, as the last request, and more behind it.
const LAST: &str = "\
    GET /flight HTTP/1.1\r\n\
    Connection: close\r\n\
    \r\n\
    GET";

/// The answer to an input that ends in a head.
const HEAD_ANSWER: &str = "\
    HTTP/1.1 400 Bad Request\r\n\
    Content-Type: application/json\r\n\
    Content-Length: 16\r\n\
    Connection: close\r\n\
    \r\n\
    {\"error\":\"head\"}";

#[test]
fn a_day_is_answered_however_its_bytes_come(rt: HostRuntime) -> Result<(), Fail> {
    let mut due = vec![in rt.alloc(); MORNING_ANSWERS, PLAN_ANSWER, REFUSED_ANSWERS, ODD_ANSWERS]?;
    due.extend_from_slice(&AFTERNOON_ANSWERS)?;
    for most in [1, 100, 100_000] {
        let day = Case {
            most,
            ..Case::of(&[MORNING, PLAN, REFUSED, ODD, AFTERNOON])
        };
        check(&rt, day, ConnEnd::Ended, &due)?;
    }
    Ok(())
}

/// How long the first part is of the answers up to the plan that is written in a case of them. Fails where the connection ends
/// otherwise.
fn length_served(rt: &HostRuntime, case: Case, end: ConnEnd) -> Result<usize, Fail> {
    let (ended, written) = served(rt, case)?;
    let due = joined(rt.alloc(), &[MORNING_ANSWERS, PLAN_ANSWER], 1)?;
    if ended == end && due.starts_with(&written) {
        return Ok(written.len());
    }
    Err(Fail::new(format_args!("{ended:?}")))
}

#[test]
fn a_failed_read_leaves_the_answers_to_whole_requests(rt: HostRuntime) -> Result<(), Fail> {
    for fail_read in 1..10 {
        let case = Case {
            fail_read,
            ..Case::of(&[MORNING, PLAN])
        };
        length_served(&rt, case, ConnEnd::ReadFault)?;
    }
    Ok(())
}

#[test]
fn a_failed_write_leaves_a_first_part_of_the_answers(rt: HostRuntime) -> Result<(), Fail> {
    let whole = length_served(&rt, Case::of(&[MORNING, PLAN]), ConnEnd::Ended)?;
    for fail_write in 1..9 {
        let case = Case {
            fail_write,
            ..Case::of(&[MORNING, PLAN])
        };
        assert!(rt; length_served(&rt, case, ConnEnd::WriteFault)? < whole);
    }
    Ok(())
}

#[test]
fn a_failed_commit_is_answered_so(rt: HostRuntime) -> Result<(), Fail> {
    let case = Case {
        fail_commit: 3,
        ..Case::of(&[AGAIN])
    };
    check(&rt, case, ConnEnd::Ended, &[AGAIN_ANSWERS])
}

#[test]
fn an_office_without_room_says_so(rt: HostRuntime) -> Result<(), Fail> {
    let case = Case {
        capacity: 8,
        ..Case::of(&[MORNING, PLAN, SHOW, REFUSED])
    };
    let due = [MORNING_ANSWERS, FULL, FULL, REFUSED_ANSWERS];
    check(&rt, case, ConnEnd::Ended, &due)
}

/// A request whose body is 200 lists, each within the one before it, and spaces up to the greatest length; and then another one.
fn nested(alloc: Global) -> Result<Vec<u8>, NoMemory> {
    let mut input = joined(alloc, &[NESTED_HEAD], 1)?;
    input.extend_from_slice(joined(alloc, &["["], 200)?.as_slice())?;
    input.extend_from_slice(joined(alloc, &["]"], 200)?.as_slice())?;
    input.extend_from_slice(joined(alloc, &[" "], 15_984)?.as_slice())?;
    input.extend_from_slice(NO_ROUTE.as_bytes())?;
    Ok(input)
}

#[test]
fn a_body_of_nested_lists_is_refused_and_the_connection_goes_on(
    rt: HostRuntime,
) -> Result<(), Fail> {
    let input = nested(rt.alloc())?;
    let (end, written) = served_on(&rt, Case::of(&[]), input)?;
    assert_eq!(rt; end, ConnEnd::Ended);
    assert!(rt; written == joined(rt.alloc(), &[BODY_ANSWER, NO_ROUTE_ANSWER], 1)?);
    Ok(())
}

#[test]
fn a_connection_closes_after_a_refusal(rt: HostRuntime) -> Result<(), Fail> {
    let end = ConnEnd::Refused(Refusal::BadHead);
    check(&rt, Case::of(&["GET /fli"]), end, &[HEAD_ANSWER])
}

#[test]
fn a_connection_closes_after_its_last_request(rt: HostRuntime) -> Result<(), Fail> {
    check(&rt, Case::of(&[LAST]), ConnEnd::Ended, &[LAST_ANSWER])
}

#[test]
fn a_connection_has_a_thousand_requests(rt: HostRuntime) -> Result<(), Fail> {
    let case = Case {
        times: 1_001,
        ..Case::of(&[NO_ROUTE])
    };
    let (end, written) = served(&rt, case)?;
    let mut due = joined(rt.alloc(), &[NO_ROUTE_ANSWER], 999)?;
    due.extend_from_slice(LAST_ANSWER.as_bytes())?;
    assert_eq!(rt; end, ConnEnd::Served);
    assert!(rt; written == due);
    Ok(())
}
