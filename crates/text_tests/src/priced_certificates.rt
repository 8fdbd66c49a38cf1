// A certificate with prices, and edits of it.
use crate::pass;
use case_rows::{Subject, field, with_line};
use certificate::CertFault;
use hold_limits::Task;
use priced_certificate::{push_priced_certificate, read_priced};
use problem_text::read_task;
use std::alloc::Global;
use std::test::Fail;
use telex::Builder;

/// A task whose hold has the positions 11, 12 and 41.
const TASK: &[u8] = b"TASK 1
position 11 1 0 AKE 1500
position 12 1 0 AKE 1500
position 41 1 0 AKE 1500
base 0.00000
window 0.00000 0.00000
ideal 0.00000 0.00000
END
";

const CERTIFICATE: &str = "CERTIFICATE 2
best 12 41
cut 11
lower 5 ; 0 -7 0
upper 6 ; 0 0 80
expanded 3
END
";

fn task(alloc: Global) -> Result<Task, Fail> {
    Ok(read_task(alloc, TASK)?)
}

/// The certificate that a text spells.
struct Spelled;

impl Subject for Spelled {
    fn said(&self, alloc: Global, case: &str) -> Result<String, Fail> {
        let certificate = read_priced(alloc, &task(alloc)?, case.as_bytes())?;
        Ok(format!(in alloc; "{certificate:?}")?)
    }
}

#[test]
fn a_certificate_with_prices_is_read(rt: HostRuntime) {
    let row =
        "PricedCertificate { claim: Best([1, 2]), cuts: PricedCuts { list: [PricedCut { prefix: [0], \
        prices: Prices { lower_items: [5], lower_places: [0, -7, 0], upper_items: [6], upper_places: [0, 0, 80] } }] }, \
        expanded: 3 }|CERTIFICATE 2~best 12 41~cut 11~lower 5 ; 0 -7 0~upper 6 ; 0 0 80~expanded 3~END~";
    pass(&rt, rt.alloc(), &Spelled, row);
}

/// The text of the certificate that a text spells.
struct Rewritten;

impl Subject for Rewritten {
    fn said(&self, alloc: Global, case: &str) -> Result<String, Fail> {
        let task = task(alloc)?;
        let certificate = read_priced(alloc, &task, case.as_bytes())?;
        let mut text = Builder::new(alloc);
        push_priced_certificate(&mut text, &task, &certificate)?;
        Ok(String::from_utf8(text.finish())?)
    }
}

#[test]
fn what_was_written_with_prices_is_read_back(rt: HostRuntime) {
    let rows = "CERTIFICATE 2~none~expanded 0~END~|PLAN~CERTIFICATE 2~none~expanded 0~END~
CERTIFICATE 2~none~cut~lower ;~upper ;~expanded 0~END~|CERTIFICATE 2~none~cut~lower ;~upper ;~expanded 0~END~
CERTIFICATE 2~none~cut~lower ; -1~upper 8 ;~expanded 0~END~|CERTIFICATE 2~none~cut~lower ; -1~upper 8 ;~expanded 0~END~
CERTIFICATE 2~best~cut~lower 99999999999999 ;~upper ;~expanded 0~END~|\
        CERTIFICATE 2~best~cut~lower 99999999999999 ;~upper ;~expanded 0~END~";
    pass(&rt, rt.alloc(), &Rewritten, rows);
}

/// Why the text is refused, if it is.
fn fault_of(alloc: Global, text: &str) -> Result<Option<CertFault>, Fail> {
    Ok(read_priced(alloc, &task(alloc)?, text.as_bytes()).err())
}

/// Why the certificate is refused with a line in place of that with a number. A case has the number, and the line.
struct Refused;

impl Subject for Refused {
    fn said(&self, alloc: Global, case: &str) -> Result<String, Fail> {
        let number = field(case, 0)?.parse::<usize>()?;
        let text = with_line(alloc, CERTIFICATE, number, field(case, 1)?)?;
        Ok(format!(in alloc; "{:?}", fault_of(alloc, text.as_str())?)?)
    }
}

#[test]
fn the_first_wrong_line_with_prices_is_named(rt: HostRuntime) {
    let rows = "Some(NoStart)|1|CERTIFICATE 1
Some(Line(2))|2|best 13
Some(Line(3))|3|cut 13
Some(Line(4))|3|cut~cut
Some(Line(4))|3|expanded 3
Some(Line(4))|4|upper 5 ; 0
Some(Line(4))|4|lower 5
Some(Line(4))|4|lower 5 ;0
Some(Line(4))|4|lower 5 ; 0 ; 0
Some(Line(4))|4|lower 05 ; 0
Some(Line(4))|4|lower +5 ; 0
Some(Line(4))|4|lower -0 ; 0
Some(Line(4))|4|lower 5 ; 0 
Some(Line(4))|4|lower 100000000000000 ;
Some(Line(5))|4|lower ;~cut
Some(Line(5))|5|expanded 3
Some(Line(6))|5|upper ;~upper ;
Some(Line(8))|5|upper ;~cut 12~lower ;~expanded 3
Some(Line(6))|6|expanded 50001";
    pass(&rt, rt.alloc(), &Refused, rows);
}

/// Appends a price so often.
fn add_prices(line: &mut String, times: &str) -> Result<(), Fail> {
    for _ in 0..times.parse::<usize>()? {
        line.push_str(" 7")?;
    }
    Ok(())
}

/// Why the certificate is refused with so many prices on its line `lower`. A case has the numbers of the prices of
/// containers, and of those of positions.
struct Crowded;

impl Subject for Crowded {
    fn said(&self, alloc: Global, case: &str) -> Result<String, Fail> {
        let mut line = String::from_str(alloc, "lower")?;
        add_prices(&mut line, field(case, 0)?)?;
        line.push_str(" ;")?;
        add_prices(&mut line, field(case, 1)?)?;
        let text = with_line(alloc, CERTIFICATE, 4, line.as_str())?;
        Ok(format!(in alloc; "{:?}", fault_of(alloc, text.as_str())?)?)
    }
}

#[test]
fn a_line_has_up_to_60_prices_of_containers_and_64_of_positions(rt: HostRuntime) {
    let rows = "None|60|64
Some(Line(4))|61|64
Some(Line(4))|60|65";
    pass(&rt, rt.alloc(), &Crowded, rows);
}

/// The first length of the certificate that is not refused because its start or its end is missing.
fn first_other_length(alloc: Global) -> Result<Option<usize>, Fail> {
    let text = CERTIFICATE.as_bytes();
    let task = task(alloc)?;
    for length in 0..text.len() {
        let due = if length < 14 {
            CertFault::NoStart
        } else {
            CertFault::NoEnd
        };
        if read_priced(alloc, &task, &text[..length]).err() != Some(due) {
            return Ok(Some(length));
        }
    }
    Ok(None)
}

#[test]
fn a_text_with_prices_that_stops_early_has_no_end(rt: HostRuntime) -> Result<(), Fail> {
    assert_eq!(rt; first_other_length(rt.alloc())?, None);
    Ok(())
}
