// Certificates of trees, judged.
use crate::pass;
use case_rows::{Subject, field, with_line};
use problem_text::read_task;
use std::alloc::Global;
use std::test::Fail;
use tree_certificate::read_trees;
use tree_checker::{check_trees, no_plan_by_trees, proven_by_trees};

// The best path is 12 41, with a distance of 40,000 ticks.
const TASK: &[u8] = b"TASK 1
position 11 1 -600 AKE 1500
position 12 1 -400 AKE 1500
position 41 4 400 AKE 1500
position 42 4 600 AKE 1500
item AKE10001XX 1000
item AKE10002XX 900
base 50.00000
window -100.00000 100.00000
ideal 50.00000 50.00000
END
";

const CERTIFICATE: &str = "CERTIFICATE 3
best 12 41
low ; ;
high ; ;
nearer
split 0 11 12
split 1 11 12
leaf 1
split 0 11
residue
residue
split 1 41 42
leaf 0
split 0 41
residue
residue
least 0 11
leaf 1
least 1 11
residue
END
";

// The heavy container excludes both forward positions of the others.
const EXCLUDING: &[u8] = b"TASK 1
position 11 1 -600 AKE 1500
position 12 1 -400 AKE 1500
position 12P 1 -500 PMC 3000
position 41 4 400 AKE 1500
position 42 4 600 AKE 1500
exclude 11 12P
exclude 12 12P
combined 1950 11 12
item AKE10001XX 1000
item AKE10002XX 900
item PMC10003XX 2000
base 50.00000
window -12.00000 12.00000
ideal 47.00000 48.00000
END
";

// The window has no tick.
const CROSSED: &[u8] = b"TASK 1
position 11 1 -600 AKE 1500
item AKE10001XX 1000
base 50.00000
window 12.00000 -12.00000
ideal 47.00000 48.00000
END
";

const EMPTY: &[u8] = b"TASK 1
position 11 1 -600 AKE 1500
base 50.00000
window -12.00000 12.00000
ideal 47.00000 48.00000
END
";

// What the check of a certificate for a task says.
fn judged(alloc: Global, task: &[u8], text: &str) -> Result<String, Fail> {
    let task = read_task(alloc, task)?;
    let certificate = read_trees(alloc, &task, text.as_bytes())?;
    Ok(format!(in alloc; "{:?}", check_trees(alloc, &task, &certificate))?)
}

/// What a check says of the certificate with a line in place of that with a number, or without the line. A case has the number
/// and the line.
struct Edited;

impl Subject for Edited {
    fn said(&self, alloc: Global, case: &str) -> Result<String, Fail> {
        let number = field(case, 0)?.parse::<usize>()?;
        let line = field(case, 1)?;
        let line = if line.is_empty() { "-" } else { line };
        let text = with_line(alloc, CERTIFICATE, number, line)?.replace(alloc, "\n-", "")?;
        judged(alloc, TASK, text.as_str())
    }
}

#[test]
fn the_first_wrong_part_is_named(rt: HostRuntime) {
    let rows = "Ok(())|21|END
Ok(())|9|split 0 12
Ok(())|16|leaf 0
Ok(())|18|residue
Ok(())|18|narrow 1
Ok(())|18|split 1 12 41~residue~residue
Err(WrongOperation(0, 2))|2|best 11 12
Err(WrongOperation(0, 2))|8|leaf 0
Err(WrongOperation(0, 2))|8|leaf 2
Err(WrongOperation(0, 2))|8|residue
Err(WrongOperation(0, 4))|10|leaf 0
Err(WrongOperation(0, 4))|10|narrow 2
Err(WrongOperation(0, 10))|16|
Err(WrongOperation(0, 11))|16|residue~residue
Err(WrongOperation(1, 0))|17|least 0 12
Err(WrongOperation(1, 0))|17|least 3 11
Err(WrongOperation(1, 0))|18|
Err(WrongOperation(1, 1))|19|
Err(WrongOperation(2, 0))|19|least 1 12
Err(WrongOperation(2, 1))|20|residue~residue
Err(NotAPlacement)|2|best 12 12
Err(NotAPlacement)|2|best 12
Err(WrongSibling(1))|2|best 41 12
Err(WrongPrices(0))|3|low ; 0 1 ;
Err(WrongPrices(1))|4|high 11 10000000000001 ; ;
Err(WrongSibling(0))|17|least 1 11
Err(WrongSibling(2))|21|least 1 12~END";
    pass(&rt, rt.alloc(), &Edited, rows);
}

/// What a check says of a certificate with the cliques and prices of a case, where a container excludes positions.
struct Cliques;

impl Subject for Cliques {
    fn said(&self, alloc: Global, case: &str) -> Result<String, Fail> {
        let text = format!(in alloc;
            "CERTIFICATE 3\nbest 12P 41 42\n{case}\nnearer\nnarrow 0\nEND\n"
        )?;
        judged(alloc, EXCLUDING, text.as_str())
    }
}

#[test]
fn cliques_and_prices_are_tested_in_this_order(rt: HostRuntime) {
    let rows = "Ok(())|clique 11 12P~clique 12 12P~low ; 0 0 ; 1 10000000000000
Err(NotAClique(1))|clique 11 12P~clique 11 12 12P~low ; 1 7 ;
Err(WrongPrices(1))|clique 11 12P~low ; ;~low ; 1 7 ;
Err(WrongPrices(0))|clique 11 12P~low ; ; 1 7
Ok(())|low ; ;~high ; ;";
    pass(&rt, rt.alloc(), &Cliques, rows);
}

/// What a check says of a whole certificate of a task that is empty or crossed. A case has the task and the certificate's lines.
struct Whole;

impl Subject for Whole {
    fn said(&self, alloc: Global, case: &str) -> Result<String, Fail> {
        let task = if field(case, 0)? == "EMPTY" {
            EMPTY
        } else {
            CROSSED
        };
        let text = format!(in alloc; "CERTIFICATE 3\n{}\nEND\n", field(case, 1)?)?;
        judged(alloc, task, text.as_str())
    }
}

#[test]
fn tasks_without_containers_or_ticks(rt: HostRuntime) {
    let rows = "Ok(())|EMPTY|best~low ; ;~nearer~leaf 0
Ok(())|EMPTY|best~nearer~residue
Err(WrongOperation(0, 0))|EMPTY|none~any
Ok(())|CROSSED|none~any
Err(WrongOperation(0, 0))|CROSSED|none~any~residue
Err(WrongSibling(0))|CROSSED|none~any~least 0 11";
    pass(&rt, rt.alloc(), &Whole, rows);
}

// The path of the good certificate, which is kept.
fn proven_path(alloc: Global) -> Result<String, Fail> {
    let task = read_task(alloc, TASK)?;
    let certificate = read_trees(alloc, &task, CERTIFICATE.as_bytes())?;
    let proven = proven_by_trees(alloc, task, certificate)?;
    Ok(format!(in alloc; "{:?}", proven.path().as_slice())?)
}

// The number of containers of a task without a path, which is kept.
fn items_without_plan(alloc: Global) -> Result<usize, Fail> {
    let task = read_task(alloc, CROSSED)?;
    let certificate = read_trees(alloc, &task, b"CERTIFICATE 3\nnone\nany\nEND\n")?;
    let no_plan = no_plan_by_trees(alloc, task, certificate)?;
    Ok(no_plan.task().items().len())
}

#[test]
fn a_good_certificate_is_kept_with_its_claim(rt: HostRuntime) -> Result<(), Fail> {
    assert_eq!(rt; proven_path(rt.alloc())?.as_str(), "[1, 2]");
    assert_eq!(rt; items_without_plan(rt.alloc())?, 1);
    Ok(())
}
