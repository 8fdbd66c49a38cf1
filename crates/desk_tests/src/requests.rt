// What requests ask of the office, and the first reason for which one asks nothing.
use desk_answers::PlainError;
use desk_requests::{Asked, read_request};
use desk_routes::DeskRouter;
use flight_history::{FigurePart, Request, What};
use std::alloc::Global;
use std::str;
use std::test::Fail;

/// A request of each route: its method, its target, a word for what it asks, and its body. A `~` stands for the end of a
/// line.
const REQUESTS: &[u8] =
    br#"POST|/flights|open|{"flight":"XX210","day":12,"registration":"DAIAB","origin":"FRA","destination":"ARN"}
GET|/flights/XX210-12|row|
PUT|/flights/XX210-12/dry/1|dry|{"mass":42000,"index":"50.00000","cockpit":2,"cabin":4}
PUT|/flights/XX210-12/fuel/2|fuel|{"taxi":200,"takeoff":9000,"trip":6000}
PUT|/flights/XX210-12/limits/3|limits|{"takeoff":73500,"landing":66000}
PUT|/flights/XX210-12/cabin/4|cabin|{"zones":[[50,4,2],[70,6,1]]}
PUT|/flights/XX210-12/containers/5|containers|id,mass~AKE10001XX,1000~AKE10002XX,800~
PUT|/flights/XX210-12/loose/6|loose|{"bulk":[["51",200,8]]}
POST|/flights/XX210-12/plan/7|plan|
POST|/flights/XX210-12/plan/7|plan|{"budget":500}
POST|/flights/XX210-12/best/7|best|
POST|/flights/XX210-12/best/7|best|{"looks":1}
POST|/flights/XX210-12/best/7|best|{"looks":1000000}
GET|/flights/XX210-12/task/7|take|
POST|/flights/XX210-12/release/7|release|
POST|/flights/XX210-12/lmc/7|late|{"zone":2,"adults":5,"children":0,"infants":0}
POST|/flights/XX210-12/reopen/8|reopen|
POST|/flights/XX210-12/depart/9|depart|
GET|/flights/XX210-12/sheet|sheet|
GET|/flights/XX210-12/ldm|ldm|
GET|/flights/XX210-12/cpm|cpm|"#;

/// Requests that ask nothing, with the first reason against each.
const REASONS: &[u8] = br#"GET|/|no route|
GET|/flights/XX210-12?full|no route|
POST|/flights/XX210-12/weight/1|no route|
POST|/flights/XX210-12/best|no route|
GET|/flights/XX210-12/task|no route|
GET|/flights|method|
get|/flights/XX210-12|method|
POST|/flights/x/dry/0|method|
GET|/flights/x/best/0|method|
PUT|/flights/x/best/0|method|
POST|/flights/x/task/0|method|x
PUT|/flights/x/dry/0|edition|
POST|/flights/x/release/01|edition|x
POST|/flights/x/plan/4294967296|edition|x
POST|/flights/x/best/0|edition|x
GET|/flights/x/task/07|edition|x
PUT|/flights/x/dry/1|body|
GET|/flights/XX210-12|body|x
POST|/flights/XX210-12/plan/7|body| 
POST|/flights/XX210-12/plan/7|body|{"looks":500}
POST|/flights/x/best/7|body|{"looks":0}
POST|/flights/XX210-12/best/7|body|{"looks":1000001}
POST|/flights/XX210-12/best/7|body|{"looks":5,"budget":500}
POST|/flights/XX210-12/best/7|body|{"budget":500}
POST|/flights/XX210-12/best/7|body|5
GET|/flights/x/task/7|body|{"looks":500}
GET|/flights/XX210-32|no flight|
POST|/flights/x/depart/1|no flight|
POST|/flights/XX210-32/best/7|no flight|{"looks":500}
GET|/flights/x/task/7|no flight|"#;

fn part_word(part: &FigurePart) -> &'static str {
    match part {
        FigurePart::Dry(_) => "dry",
        FigurePart::Fuel(_) => "fuel",
        FigurePart::Limits(_) => "limits",
        FigurePart::Cabin(_) => "cabin",
        FigurePart::Containers(_) => "containers",
        FigurePart::Loose(_) => "loose",
    }
}

fn shown_word(what: What) -> &'static str {
    match what {
        What::State => "row",
        What::Sheet => "sheet",
        What::Ldm => "ldm",
        What::Cpm => "cpm",
    }
}

fn request_word(request: &Request) -> &'static str {
    match request {
        Request::NewFlight { .. } => "open",
        Request::Set { part, .. } => part_word(part),
        Request::Take { .. } => "take",
        Request::Install { .. } => "install",
        Request::InstallBest { .. } => "install best",
        Request::Release { .. } => "release",
        Request::Late { .. } => "late",
        Request::Reopen { .. } => "reopen",
        Request::Depart { .. } => "depart",
        Request::Show { what, .. } => shown_word(*what),
    }
}

fn word_of(asked: &Asked) -> &'static str {
    match asked {
        Asked::Entry(request) => request_word(request),
        Asked::Plan { .. } => "plan",
        Asked::Best { .. } => "best",
    }
}

fn error_word(error: PlainError) -> &'static str {
    match error {
        PlainError::NoRoute => "no route",
        PlainError::Method => "method",
        PlainError::Edition => "edition",
        PlainError::Body => "body",
        PlainError::NoFlight => "no flight",
        _ => "another error",
    }
}

/// The field at this place of a row.
fn field_at(row: &[u8], place: usize) -> Result<&[u8], Fail> {
    let field = row.split(|byte| *byte == b'|').nth(place);
    Ok(field.ok_or("a row has four fields")?)
}

/// A word for what the request of a row asks, or for the reason against it.
fn answer_to(alloc: Global, router: &DeskRouter, row: &[u8]) -> Result<&'static str, Fail> {
    let (method, target) = (field_at(row, 0)?, field_at(row, 1)?);
    let mut body = field_at(row, 3)?.to_vec(alloc)?;
    for byte in &mut body {
        if *byte == b'~' {
            *byte = b'\n';
        }
    }
    match &read_request(alloc, router, method, target, body.as_slice()) {
        Ok(asked) => Ok(word_of(asked)),
        Err(error) => Ok(error_word(*error)),
    }
}

/// The first row whose request is answered with another word.
fn first_wrong(alloc: Global, table: &[u8]) -> Result<Option<usize>, Fail> {
    let router = DeskRouter::new(alloc)?;
    for (at, row) in table.split(|byte| *byte == b'\n').enumerate() {
        if answer_to(alloc, &router, row)?.as_bytes() != field_at(row, 2)? {
            return Ok(Some(at));
        }
    }
    Ok(None)
}

#[test]
fn each_route_asks_its_request(rt: HostRuntime) -> Result<(), Fail> {
    assert_eq!(rt; first_wrong(rt.alloc(), REQUESTS)?, None);
    Ok(())
}

#[test]
fn the_first_reason_is_named(rt: HostRuntime) -> Result<(), Fail> {
    assert_eq!(rt; first_wrong(rt.alloc(), REASONS)?, None);
    Ok(())
}

/// The parts of a plan, a task or a release that a request asks for: its key, its edition, and a plan's budget or looks.
fn parts_of(alloc: Global, asked: &Asked) -> Result<String, Fail> {
    match asked {
        Asked::Plan {
            key,
            edition,
            budget,
        } => {
            let key = str::from_utf8(key.bytes())?;
            Ok(format!(in alloc; "plan {key} {edition} {budget}")?)
        }
        Asked::Best {
            key,
            edition,
            looks,
        } => {
            let key = str::from_utf8(key.bytes())?;
            Ok(format!(in alloc; "best {key} {edition} {looks}")?)
        }
        Asked::Entry(Request::Take { key, edition }) => {
            let key = str::from_utf8(key.bytes())?;
            Ok(format!(in alloc; "take {key} {edition}")?)
        }
        Asked::Entry(Request::Release { key, edition }) => {
            let key = str::from_utf8(key.bytes())?;
            Ok(format!(in alloc; "release {key} {edition}")?)
        }
        Asked::Entry(_) => Err(Fail::new("the request asks for something else")),
    }
}

/// These parts of a request.
fn parts_asked(alloc: Global, method: &str, target: &str, body: &str) -> Result<String, Fail> {
    let router = DeskRouter::new(alloc)?;
    let (method, target, body) = (method.as_bytes(), target.as_bytes(), body.as_bytes());
    parts_of(alloc, &read_request(alloc, &router, method, target, body)?)
}

#[test]
fn the_target_and_the_body_tell_the_parts(rt: HostRuntime) -> Result<(), Fail> {
    let rows = [
        (
            "POST",
            "/flights/XX210-12/plan/7",
            r#"{"budget":500}"#,
            "plan XX210-12 7 500",
        ),
        (
            "POST",
            "/flights/XX210-12/best/7",
            r#"{"looks":100000}"#,
            "best XX210-12 7 100000",
        ),
        (
            "POST",
            "/flights/YY7A-31/best/4294967295",
            "",
            "best YY7A-31 4294967295 2000",
        ),
        ("GET", "/flights/XX210-12/task/7", "", "take XX210-12 7"),
        (
            "POST",
            "/flights/YY7A-31/release/4294967295",
            "",
            "release YY7A-31 4294967295",
        ),
    ];
    for (method, target, body, due) in rows {
        assert_eq!(rt;
            parts_asked(rt.alloc(), method, target, body)?.as_str(),
            due
        );
    }
    Ok(())
}
