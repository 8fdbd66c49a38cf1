// The texts of small loads in transit, and what is read of them.
use case_rows::edited;
use hold_limits::Task;
use problem_text::read_task;
use std::alloc::Global;
use std::test::Fail;

/// Four positions for containers, numbered 0 to 3, and a bulk position; three containers, heaviest first.
const TASK: &str = "TASK 1
position 11 1 -600 AKE 1500
position 12 1 -400 AKE 1500
position 41 4 400 AKE 1500
position 42 4 600 AKE 1500
bulk 51 5 900
item AKE10001XX 1000
item AKE10002XX 800
item AKE10003XX 600
base 50.00000
window -100.00000 100.00000
ideal 50.00000 50.00000
END
";

/// The first two lines of the flight's container messages.
pub const HEADING: &str = "CPM
XX210/12.DAIAB.Y150
";

/// Where the flight is: what goes on to another station stays.
pub const STATION: &[u8] = b"FRA";

/// The task of the text with these edits.
pub fn task_with(alloc: Global, edits: &str) -> Result<Task, Fail> {
    Ok(read_task(alloc, edited(alloc, TASK, edits)?.as_bytes())?)
}

/// The container message whose positions have these lines.
pub fn message_with(alloc: Global, lines: &str) -> Result<String, Fail> {
    let mut text = String::from_str(alloc, HEADING)?;
    text.push_str(lines)?;
    text.push('\n')?;
    Ok(text)
}
