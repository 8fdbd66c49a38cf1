// The tight reach of small prefixes, and the span of the prices that belong to it, beside the plain program.
use crate::plain_ways::tight_by_trial;
use case_rows::{Subject, check, edited};
use hold_partial::Partial;
use prices::{prices_of, span, tight};
use problem_text::read_task;
use std::alloc::Global;
use std::process::{ExitCode, Termination};
use std::test::Fail;

/// Four positions, numbered 0 to 3, two towards the nose, and three containers, of which the last two are twins.
const THREE: &str = "TASK 1
position 11 1 -600 AKE 1500
position 12 1 -400 AKE 1500
position 41 4 400 AKE 1500
position 42 4 600 AKE 1500
item AKE10001XX 1000
item AKE10002XX 800
item AKE10003XX 800
base 50.00000
window -100.00000 100.00000
ideal 50.00000 50.00000
END
";

/// The ends of the tight reach, or `none`; behind a prefix, by the digits of its positions, and edits of that text.
const SMALL_PREFIXES: &str = "-920000 920000||item AKE10003XX 800~=>
-1320000 1320000||item AKE10003XX 800~=>|11 1 -600=>11 1 -1000|42 4 600=>42 4 1000
-600000 600000||
-400000 560000|2|
-200000 440000|30|
none|32|
-600000 -440000|01|
-1400000 -1200000||41 4 400=>41 4 -400|42 4 600=>42 4 -600
-560000 560000||11 1 -600 AKE 1500=>11 1 -600 AKE 900|42 4 600 AKE 1500=>42 4 600 AKE 900
-920000 -920000||item AKE10003XX 800~=>|12 1 -400 AKE 1500=>12 1 -400 AKE 900|41 4 400 AKE 1500=>41 4 400 AKE 700|42 4 600 AKE 1500=>42 4 600 AKE 700
none||12 1 -400 AKE 1500=>12 1 -400 AKE 900|41 4 400 AKE 1500=>41 4 400 AKE 900|42 4 600 AKE 1500=>42 4 600 AKE 900|item AKE10002XX 800=>item AKE10002XX 1000
none||item AKE10003XX 800=>item AKE10003XX 1600
none||position 12 1 -400 AKE 1500~position 41 4 400 AKE 1500~=>";

struct TightReaches;

fn told(alloc: Global, partial: &Partial<'_>) -> Result<String, Fail> {
    let ends = tight(partial).map(|ends| (ends.0.0, ends.1.0));
    if ends != tight_by_trial(partial) {
        return Ok(String::from_str(alloc, "differs from the plain program")?);
    }
    let shown = span(partial, &prices_of(partial));
    match (ends, shown) {
        (Some((low, high)), Some(span)) if span == (low, high) => Ok(format!(in alloc;
            "{low} {high}"
        )?),
        (None, Some((low, high))) if low > high => Ok(String::from_str(alloc, "none")?),
        _ => Ok(String::from_str(alloc, "prices of another span")?),
    }
}

impl Subject for TightReaches {
    fn said(&self, alloc: Global, case: &str) -> Result<String, Fail> {
        let (digits, edits) = case.split_once('|').unwrap_or((case, ""));
        let task = read_task(alloc, edited(alloc, THREE, edits)?.as_bytes())?;
        let Ok(mut partial) = Partial::new(&task) else {
            return Ok(String::from_str(alloc, "no placement")?);
        };
        for digit in digits.as_bytes() {
            if partial.prefix().len() < partial.task().items().len()
                && partial.try_place(*digit & 15).is_err()
            {
                return Ok(String::from_str(alloc, "no prefix")?);
            }
        }
        told(alloc, &partial)
    }
}

#[test]
fn the_tight_reach_is_that_of_all_ways(rt: HostRuntime) {
    let passed = check(rt.alloc(), &TightReaches, SMALL_PREFIXES).report(&rt);
    assert!(rt; passed == ExitCode::SUCCESS);
}
