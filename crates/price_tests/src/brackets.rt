// Brackets of small prefixes, beside the tight reach: from nothing, and each from that of the prefix before it.
use case_rows::{Subject, check, edited};
use hold_partial::Partial;
use hold_reach::Span;
use prices::tight;
use problem_text::read_task;
use std::alloc::Global;
use std::process::{ExitCode, Termination};
use std::test::Fail;
use tight_bracket::Bracket;

/// Five positions, numbered 0 to 4, and three containers. Number 1 is the best of them for the lower end.
const FIVE: &str = "TASK 1
position 11 1 -600 AKE 1500
position 12 1 -500 AKE 1500
position 21 2 0 AKE 1500
position 41 4 400 AKE 1500
position 42 4 600 AKE 1500
item AKE10001XX 1000
item AKE10002XX 800
item AKE10003XX 500
base 50.00000
window -100.00000 100.00000
ideal 50.00000 50.00000
END
";

/// For both ends, by how many ticks the span around lies outside of the tight reach, and then that within inside; or
/// `none`, where there is no way and the span around is empty. Behind a prefix, by the digits of its positions, and edits
/// of that text.
const SMALL_BRACKETS: &str = "0 0 0 0||
0 0 0 0|2|
0 0 0 360000|0|
0 0 330000 0|4|
0 200000 0 100000|20|
0 0 0 0|204|
none||12 1 -500 AKE 1500=>12 1 -500 AKE 900|21 2 0 AKE 1500=>21 2 0 AKE 900|41 4 400 AKE 1500=>41 4 400 AKE 900|42 4 600 AKE 1500=>42 4 600 AKE 900|item AKE10002XX 800=>item AKE10002XX 1000";

struct Brackets;

/// How far the span around lies outside of the tight reach, and that within inside, at both ends.
fn beside(alloc: Global, around: Span, within: Span, ends: (i64, i64)) -> Result<String, Fail> {
    let (low, high) = ends;
    Ok(format!(in alloc;
        "{} {} {} {}",
        low.wrapping_sub(around.low),
        around.high.wrapping_sub(high),
        within.low.wrapping_sub(low),
        high.wrapping_sub(within.high)
    )?)
}

fn told(alloc: Global, partial: &Partial<'_>, bracket: &Bracket<'_>) -> Result<String, Fail> {
    let around = bracket.around();
    match (tight(partial), bracket.within()) {
        (Some((low, high)), Some(within)) => beside(alloc, around, within, (low.0, high.0)),
        (None, None) if around.low > around.high => Ok(String::from_str(alloc, "none")?),
        _ => Ok(String::from_str(alloc, "no way is known, or one where none is")?),
    }
}

/// What is told of the placement with one container more on each of the positions, each by a bracket from the one before.
fn told_after(alloc: Global, mut partial: Partial<'_>, positions: &[u8]) -> Result<String, Fail> {
    let mut bracket = Bracket::of(&partial);
    for position in positions {
        if partial.prefix().len() >= partial.task().items().len()
            || partial.try_place(*position & 15).is_err()
        {
            return Ok(String::from_str(alloc, "no prefix")?);
        }
        bracket = bracket.followed_by(&partial);
    }
    told(alloc, &partial, &bracket)
}

impl Subject for Brackets {
    fn said(&self, alloc: Global, case: &str) -> Result<String, Fail> {
        let (digits, edits) = case.split_once('|').unwrap_or((case, ""));
        let task = read_task(alloc, edited(alloc, FIVE, edits)?.as_bytes())?;
        match Partial::new(&task) {
            Ok(partial) => told_after(alloc, partial, digits.as_bytes()),
            Err(_) => Ok(String::from_str(alloc, "no placement")?),
        }
    }
}

#[test]
fn a_bracket_lies_close_around_the_tight_reach(rt: HostRuntime) {
    let passed = check(rt.alloc(), &Brackets, SMALL_BRACKETS).report(&rt);
    assert!(rt; passed == ExitCode::SUCCESS);
}
