// Small tasks in a hold with four container positions, numbered 0 to 3, and a bulk position, as edits of one text.
use case_rows::edited;
use hold_limits::{Path, Task};
use problem_text::read_task;
use std::alloc::Global;
use std::test::Fail;

const WORKED: &str = "TASK 1
position 11 1 -600 AKE 1500
position 12 1 -400 AKE 1500
position 41 4 400 AKE 1500
position 42 4 600 AKE 1500
bulk 51 5 700
item AKE10001XX 1000
item AKE10002XX 800
base 50.00000
window -100.00000 100.00000
ideal 50.00000 50.00000
END
";

/// 11 and 42 on the right, 12 and 41 on the left, and the bulk position on the right.
pub const SIDED: &str = "TASK 2
position 11 1 -600 AKE 1500
position 12 1 -400 AKE 1500
position 41 4 400 AKE 1500
position 42 4 600 AKE 1500
bulk 51 5 700
side 11 right
side 12 left
side 41 left
side 42 right
side 51 right
lateral 500
item AKE10001XX 1000
item AKE10002XX 800
base 50.00000
window -100.00000 100.00000
ideal 50.00000 50.00000
END
";

/// The task of the text with these edits.
pub fn task_from(alloc: Global, text: &str, edits: &str) -> Result<Task, Fail> {
    Ok(read_task(alloc, edited(alloc, text, edits)?.as_bytes())?)
}

/// The worked task with these edits.
pub fn task_with(alloc: Global, edits: &str) -> Result<Task, Fail> {
    task_from(alloc, WORKED, edits)
}

/// The numbers that digits spell, one each.
pub fn numbers_of(alloc: Global, digits: &str) -> Result<Vec<u8>, Fail> {
    let mut numbers = Vec::new(alloc);
    for digit in digits.as_bytes() {
        numbers.push(*digit & 15)?;
    }
    Ok(numbers)
}

/// The path of these numbers.
pub fn path_from(alloc: Global, digits: &str) -> Result<Path, Fail> {
    Ok(Path::try_from(numbers_of(alloc, digits)?.as_slice())?)
}

/// All lists of this length of position numbers, in their order.
pub fn all_lists(alloc: Global, length: usize) -> Result<Vec<Vec<u8>>, Fail> {
    let mut lists = Vec::new(alloc);
    lists.push(Vec::new(alloc))?;
    for _ in 0..length {
        let mut longer = Vec::new(alloc);
        for list in &lists {
            for number in 0..5 {
                let mut next: Vec<u8> = list.clone()?;
                next.push(number)?;
                longer.push(next)?;
            }
        }
        lists = longer;
    }
    Ok(lists)
}
