// Lines and words of texts.
use crate::pass;
use case_rows::Subject;
use std::alloc::Global;
use std::str;
use std::test::Fail;
use text_lines::{Lines, expect_line, split_once};

/// Whether a text begins with `TASK 1`; and if so the number of the next line, the length of it, and that of the line after.
struct Begun;

impl Subject for Begun {
    fn said(&self, alloc: Global, case: &str) -> Result<String, Fail> {
        let mut lines = Lines::new(case.as_bytes());
        let first = expect_line(b"TASK 1", &mut lines);
        if first.is_err() {
            return Ok(format!(in alloc; "{first:?}")?);
        }
        let number = lines.number;
        let second = lines.next_line().map(|line| line.len());
        let third = lines.next_line().map(|line| line.len());
        Ok(format!(in alloc; "{number} {second:?} {third:?}")?)
    }
}

#[test]
fn lines_are_read_until_the_text_stops(rt: HostRuntime) {
    pass(
        &rt,
        rt.alloc(),
        &Begun,
        "2 Ok(0) Err(NoEnd)|TASK 1~~END\nErr(Line(1))|TASK 2~",
    );
}

/// What is before the first space of a line and what is behind it.
struct Split;

impl Subject for Split {
    fn said(&self, alloc: Global, case: &str) -> Result<String, Fail> {
        match split_once(b' ', case.as_bytes()) {
            Some((word, rest)) => {
                Ok(format!(in alloc; "{}:{}", str::from_utf8(word)?, str::from_utf8(rest)?)?)
            }
            None => Ok(String::from_str(alloc, "none")?),
        }
    }
}

#[test]
fn a_line_is_split_at_its_first_space(rt: HostRuntime) {
    pass(&rt, rt.alloc(), &Split, "loose:51 0|loose 51 0\nnone|END");
}
