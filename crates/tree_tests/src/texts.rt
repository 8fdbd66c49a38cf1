// A certificate, and edits of it.
use crate::pass;
use case_rows::{Subject, field, with_line};
use certificate::CertFault;
use problem_text::read_task;
use std::alloc::Global;
use std::test::Fail;
use tree_certificate::{read_trees, write_trees};

// A task whose hold has the positions 11, 12, 41 and 42.
const TASK: &[u8] = b"TASK 1
position 11 1 -600 AKE 1500
position 12 1 -400 AKE 1500
position 41 4 400 AKE 1500
position 42 4 600 AKE 1500
item AKE10001XX 1000
item AKE10002XX 900
base 50.00000
window -100.00000 100.00000
ideal 50.00000 50.00000
END
";

const CERTIFICATE: &str = "CERTIFICATE 3
best 12 41
clique 11 12
clique 41 42
low 12 40 41 10000000000000 ; 3 2 ; 1 7
high ; ;
nearer
narrow 0
split 1 41 42
leaf 0
residue
least 0 11
leaf 1
least 1 11
END
";

/// The text of the certificate that a text spells.
struct Rewritten;

impl Subject for Rewritten {
    fn said(&self, alloc: Global, case: &str) -> Result<String, Fail> {
        let task = read_task(alloc, TASK)?;
        let certificate = read_trees(alloc, &task, case.as_bytes())?;
        Ok(String::from_utf8(write_trees(alloc, &task, &certificate)?)?)
    }
}

#[test]
fn what_was_written_is_read_back(rt: HostRuntime) {
    let rows =
        "CERTIFICATE 3~best 12 41~clique 11 12~clique 41 42~low 12 40 41 10000000000000 ; 3 2 ; 1 7~high ; ;~nearer~narrow 0~split 1 41 42~leaf 0~residue~least 0 11~leaf 1~least 1 11~END~|CERTIFICATE 3~best 12 41~clique 11 12~clique 41 42~low 12 40 41 10000000000000 ; 3 2 ; 1 7~high ; ;~nearer~narrow 0~split 1 41 42~leaf 0~residue~least 0 11~leaf 1~least 1 11~END~
CERTIFICATE 3~best~nearer~END~|CERTIFICATE 3~best~nearer~END~
CERTIFICATE 3~none~any~END~|CERTIFICATE 3~none~any~END~
CERTIFICATE 3~none~high ; 0 18446744073709551615 ;~any~leaf 0~END~|CERTIFICATE 3~none~high ; 0 18446744073709551615 ;~any~leaf 0~END~
CERTIFICATE 3~none~any~END~|NONE~CERTIFICATE 3~none~any~END~";
    pass(&rt, rt.alloc(), &Rewritten, rows);
}

/// How the certificate is refused with a line in place of that with a number. A case has the number and the line.
struct Refused;

impl Subject for Refused {
    fn said(&self, alloc: Global, case: &str) -> Result<String, Fail> {
        let number = field(case, 0)?.parse::<usize>()?;
        let text = with_line(alloc, CERTIFICATE, number, field(case, 1)?)?;
        let task = read_task(alloc, TASK)?;
        match read_trees(alloc, &task, text.as_bytes()).err() {
            Some(fault) => Ok(format!(in alloc; "{fault:?}")?),
            None => Ok(String::from_str(alloc, "a certificate")?),
        }
    }
}

#[test]
fn the_first_wrong_line_is_named(rt: HostRuntime) {
    let rows = "NoStart|1|CERTIFICATE 1
NoStart|1|CERTIFICATE 3 
Line(2)|2|best 12 13
Line(7)|2|none
Line(3)|3|clique 12 11
Line(3)|3|clique 11 11
Line(3)|3|clique 11  12
Line(3)|3|cliques 11 12
Line(5)|5|low 12 ; ;
Line(5)|5|low 12 040 ; ;
Line(5)|5|low 12 40 ;
Line(5)|5|low 12 40; ;
Line(5)|5|low ; 3 18446744073709551616 ;
Line(5)|5|low ; ; 1 7 
Line(5)|5|low ; ; ;
Line(5)|5|lower ; ;
Line(7)|7|any
Line(8)|8|narrow -1
Line(9)|9|split 256 41 42
Line(9)|9|split 1 42 41
Line(11)|11|residue 
Line(12)|12|least 0
Line(12)|12|least 0 13
Line(13)|13|nearer
Line(16)|15|END~
Line(16)|16|END";
    pass(&rt, rt.alloc(), &Refused, rows);
}

/// The first length of the certificate that is refused neither for a missing start nor for a missing end.
fn first_other_length(alloc: Global) -> Result<Option<usize>, Fail> {
    let task = read_task(alloc, TASK)?;
    let text = CERTIFICATE.as_bytes();
    for length in 0..text.len() {
        let due = if length < 14 {
            CertFault::NoStart
        } else {
            CertFault::NoEnd
        };
        if read_trees(alloc, &task, &text[..length]).err() != Some(due) {
            return Ok(Some(length));
        }
    }
    Ok(None)
}

#[test]
fn a_text_that_stops_early_has_no_end(rt: HostRuntime) -> Result<(), Fail> {
    assert_eq!(rt; first_other_length(rt.alloc())?, None);
    Ok(())
}
