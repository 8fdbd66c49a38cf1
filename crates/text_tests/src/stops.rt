// The texts of loads over several sectors, and edits of one.
use crate::pass;
use case_rows::Subject;
use std::alloc::{AllocError, Global};
use std::test::Fail;
use stop_text::{read_stops, write_stops};

/// The task of a sector with two containers.
const FIRST: &str = "TASK 1
position 11 1 0 AKE 1500
position 12 1 0 AKE 1500
item AKE10001XX 1000
item AKE10002XX 900
base 0.00000
window 0.00000 0.00000
ideal 0.00000 0.00000
END
";

/// The task of a sector behind it, with the first of them.
const NEXT: &str = "TASK 1
position 11 1 0 AKE 1500
position 12 1 0 AKE 1500
item AKE10001XX 1000
base 0.00000
window 0.00000 0.00000
ideal 0.00000 0.00000
END
";

/// The text of a case, in which `FIRST` and `NEXT` stand for the tasks.
fn with_tasks(alloc: Global, case: &str) -> Result<String, AllocError> {
    String::from_str(alloc, case)?
        .replace(alloc, "FIRST\n", FIRST)?
        .replace(alloc, "NEXT\n", NEXT)
}

/// The load that a text spells, or why it spells none.
struct Spelled;

impl Subject for Spelled {
    fn said(&self, alloc: Global, case: &str) -> Result<String, Fail> {
        let text = with_tasks(alloc, case)?;
        match read_stops(alloc, text.as_bytes()) {
            Ok(load) => Ok(format!(in alloc;
                "{:?} {:?} {}",
                load.leaves(),
                load.behind(),
                load.sectors().len()
            )?),
            Err(fault) => Ok(format!(in alloc; "{fault}")?),
        }
    }
}

#[test]
fn a_load_over_several_sectors_is_read(rt: HostRuntime) {
    let rows =
        "[2, 1] [(1, 0)] 2|STOPS 1~leave AKE10001XX 2~leave AKE10002XX 1~behind 12 11~FIRST~NEXT~
[3, 1] [] 3|STOPS 1~leave AKE10001XX 3~leave AKE10002XX 1~FIRST~NEXT~NEXT~
[2, 2] [] 2|STOPS 1~leave AKE10001XX 2~leave AKE10002XX 2~FIRST~FIRST~";
    pass(&rt, rt.alloc(), &Spelled, rows);
}

/// Whether the text that is written of a load is the one from which it was read.
struct Written;

impl Subject for Written {
    fn said(&self, alloc: Global, case: &str) -> Result<String, Fail> {
        let text = with_tasks(alloc, case)?;
        let written = write_stops(alloc, &read_stops(alloc, text.as_bytes())?)?;
        let said = if written.as_slice() == text.as_bytes() {
            "the same text"
        } else {
            "another text"
        };
        Ok(String::from_str(alloc, said)?)
    }
}

#[test]
fn a_load_over_several_sectors_is_written_as_it_was_read(rt: HostRuntime) {
    let rows = "the same text|STOPS 1~leave AKE10001XX 2~leave AKE10002XX 1~behind 12 11~FIRST~NEXT~
the same text|STOPS 1~leave AKE10001XX 3~leave AKE10002XX 1~behind 11 12~behind 12 11~FIRST~NEXT~NEXT~
the same text|STOPS 1~leave AKE10001XX 3~leave AKE10002XX 2~FIRST~FIRST~NEXT~";
    pass(&rt, rt.alloc(), &Written, rows);
}

#[test]
fn what_is_no_load_over_several_sectors_is_refused(rt: HostRuntime) {
    let rows = "line 1 is not allowed after the lines before it|STOPS 2~
line 2 is not allowed after the lines before it|STOPS 1~leave AKE10001XX 4~
line 14 is not allowed after the lines before it|STOPS 1~leave AKE10001XX 2~leave AKE10002XX 1~FIRST~TASK 1~END~
line 29 is not allowed after the lines before it|STOPS 1~leave AKE10001XX 2~leave AKE10002XX 1~FIRST~NEXT~NEXT~x
the text stops before the end of its last task|STOPS 1~leave AKE10001XX 2~leave AKE10002XX 1~FIRST~
the text stops before the end of its last task|STOPS 1~leave AKE10001XX 2~leave AKE10002XX 1~FIRST~NEXT~x
the load is not lawful: not one last sector for each container|STOPS 1~leave AKE10002XX 1~leave AKE10001XX 2~FIRST~NEXT~
the load is not lawful: sector 2 has other containers than those aboard|STOPS 1~leave AKE10001XX 1~leave AKE10002XX 2~FIRST~NEXT~
the load is not lawful: pair 1 has equal or unknown positions|STOPS 1~leave AKE10001XX 2~leave AKE10002XX 1~behind 11 12~behind 11 13~FIRST~NEXT~";
    pass(&rt, rt.alloc(), &Spelled, rows);
}
