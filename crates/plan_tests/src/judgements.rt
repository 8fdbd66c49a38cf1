// Certificates of small tasks: the worked ones, and many beside a plain program of what makes the first reason.
use crate::pass;
use crate::plain_reach::{bound_of, is_prefix_viable};
use crate::small_tasks::{all_lists, path_from, task_with};
use case_rows::{Subject, field};
use cert_checker::{NoPlan, Proven, Reject, check as judge};
use certificate::{Certificate, Claim};
use hold_limits::{Path, Task, hold_index_of, is_in_window, is_sound, outcome};
use std::alloc::{AllocError, Global};
use std::test::Fail;

// The cuts that are spelled so: each is its numbers, and a 9 after them.
fn cuts_of(alloc: Global, spelled: &str) -> Result<Vec<Path>, Fail> {
    let mut cuts = Vec::new(alloc);
    let mut cut: Vec<u8> = Vec::new(alloc);
    for digit in spelled.as_bytes() {
        if *digit == b'9' {
            cuts.push(Path::try_from(cut.as_slice())?)?;
            cut = Vec::new(alloc);
        } else {
            cut.push(*digit & 15)?;
        }
    }
    Ok(cuts)
}

// The claim that is spelled so: the digits of a path, or `none`.
fn claim_of(alloc: Global, spelled: &str) -> Result<Claim, Fail> {
    if spelled == "none" {
        return Ok(Claim::NoneFits);
    }
    Ok(Claim::Best(path_from(alloc, spelled)?))
}

fn certificate(alloc: Global, claim: &str, cuts: &str, expanded: u32) -> Result<Certificate, Fail> {
    Ok(Certificate {
        claim: claim_of(alloc, claim)?,
        cuts: cuts_of(alloc, cuts)?.into(),
        expanded,
    })
}

fn verdict_text(
    alloc: Global,
    task: &Task,
    certificate: &Certificate,
) -> Result<String, AllocError> {
    format!(in alloc; "{:?}", judge(task, certificate))
}

/// What a check says of a certificate of the worked task, which has the claimed path, the cuts, and the number of expanded
/// prefixes.
struct Judged;

impl Subject for Judged {
    fn said(&self, alloc: Global, case: &str) -> Result<String, Fail> {
        let expanded = field(case, 2)?.parse::<u32>()?;
        let certificate = certificate(alloc, field(case, 0)?, field(case, 1)?, expanded)?;
        Ok(verdict_text(alloc, &task_with(alloc, "")?, &certificate)?)
    }
}

#[test]
fn the_worked_certificates_are_judged(rt: HostRuntime) {
    let rows = "Ok(())|12|0939|3
Err(CutWeak(1))|12|091939|3
Err(MoreExpanded)|12|0939|2
Err(Nearer([1, 2]))|20|0939|3
Err(CutOrder(1))|12|3909|3
Err(Exists([0, 1]))|none||2";
    pass(&rt, rt.alloc(), &Judged, rows);
}

fn proven_text(alloc: Global, proven: &Proven) -> Result<String, AllocError> {
    let numbers = (proven.task().items().len(), proven.certificate().expanded);
    format!(in alloc; "{:?} {numbers:?}", proven.path().as_slice())
}

fn no_plan_text(alloc: Global, no_plan: &NoPlan) -> Result<String, AllocError> {
    let numbers = (no_plan.task().items().len(), no_plan.certificate().expanded);
    format!(in alloc; "{numbers:?}")
}

/// The path of the worked task with its evidence, the number of its containers, and the number of expanded prefixes.
struct BestPath;

impl Subject for BestPath {
    fn said(&self, alloc: Global, case: &str) -> Result<String, Fail> {
        let best = certificate(alloc, field(case, 0)?, field(case, 1)?, 3)?;
        Ok(proven_text(alloc, &Proven::new(task_with(alloc, case)?, best)?)?)
    }
}

/// The same numbers of a task without a path.
struct NoPath;

impl Subject for NoPath {
    fn said(&self, alloc: Global, case: &str) -> Result<String, Fail> {
        let none = certificate(alloc, "none", "", 3)?;
        Ok(no_plan_text(alloc, &NoPlan::new(task_with(alloc, case)?, none)?)?)
    }
}

#[test]
fn evidence_is_kept_with_its_task(rt: HostRuntime) {
    pass(&rt, rt.alloc(), &BestPath, "[1, 2] (2, 3)|12|0939");
    pass(
        &rt,
        rt.alloc(),
        &NoPath,
        "(2, 3)|-100.00000 100.00000=>0.00000 0.00000",
    );
}

// Every list of position numbers for at most as many containers, in path order.
fn all_prefixes(alloc: Global, count: usize) -> Result<Vec<Vec<u8>>, Fail> {
    let mut prefixes = Vec::new(alloc);
    for length in 0..=count {
        for list in all_lists(alloc, length)? {
            prefixes.push(list)?;
        }
    }
    prefixes.sort()?;
    Ok(prefixes)
}

fn is_path_admissible(task: &Task, path: &[u8]) -> bool {
    is_sound(task, path)
        && path.len() == task.items().len()
        && is_in_window(task, hold_index_of(task, path))
}

// Whether nothing better than the claimed path begins with the prefix.
fn is_no_better(task: &Task, claim: &Claim, prefix: &[u8]) -> bool {
    let Claim::Best(path) = claim else {
        return false;
    };
    if prefix.len() > task.items().len() {
        return false;
    }
    if !is_sound(task, path.as_slice()) {
        return false;
    }
    let Some(bound) = bound_of(task, prefix) else {
        return false;
    };
    let (_, distance) = outcome(task, path);
    distance < bound || (distance == bound && path.as_slice().cmp(prefix).is_le())
}

// The first fault of a cut, tested against each cut before it.
fn plain_fault(task: &Task, certificate: &Certificate) -> Option<Reject> {
    let cuts = certificate.cuts.as_slice();
    for at in 0..cuts.len() {
        let cut = cuts[at].as_slice();
        for earlier in &cuts[..at] {
            let earlier = earlier.as_slice();
            if earlier.cmp(cut).is_ge() || cut.starts_with(earlier) {
                return Some(Reject::CutOrder(at));
            }
        }
        if !is_prefix_viable(task, cut) || cut.len() >= task.items().len() {
            return Some(Reject::CutNotViable(at));
        }
        if !is_no_better(task, &certificate.claim, cut) {
            return Some(Reject::CutWeak(at));
        }
    }
    None
}

fn is_cut(certificate: &Certificate, prefix: &[u8]) -> bool {
    for cut in certificate.cuts.as_slice() {
        if prefix.starts_with(cut.as_slice()) {
            return true;
        }
    }
    false
}

// The first reason against a certificate by its definition, found by looking at every prefix there is.
fn plain_check(
    task: &Task,
    prefixes: &[Vec<u8>],
    certificate: &Certificate,
) -> Result<Result<(), Reject>, Fail> {
    if let Claim::Best(path) = &certificate.claim
        && !is_path_admissible(task, path.as_slice())
    {
        return Ok(Err(Reject::NotAPlacement));
    }
    if let Some(fault) = plain_fault(task, certificate) {
        return Ok(Err(fault));
    }
    let mut left = certificate.expanded;
    for prefix in prefixes {
        let prefix = prefix.as_slice();
        if !is_prefix_viable(task, prefix) || is_cut(certificate, prefix) {
            continue;
        }
        if prefix.len() < task.items().len() {
            if left == 0 {
                return Ok(Err(Reject::MoreExpanded));
            }
            left -= 1;
        } else if !is_no_better(task, &certificate.claim, prefix) {
            let path = Path::try_from(prefix)?;
            return Ok(Err(match &certificate.claim {
                Claim::Best(_) => Reject::Nearer(path),
                Claim::NoneFits => Reject::Exists(path),
            }));
        }
    }
    Ok(Ok(()))
}

// The reason that a check gives, as one of eight bits, where the definition gives the same reason.
fn agreed(
    alloc: Global,
    task: &Task,
    prefixes: &[Vec<u8>],
    certificate: &Certificate,
) -> Result<u8, Fail> {
    let plain = plain_check(task, prefixes, certificate)?;
    let verdict = judge(task, certificate);
    if format!(in alloc; "{verdict:?}")? != format!(in alloc; "{plain:?}")? {
        return Err("the definition has another reason".into());
    }
    Ok(match verdict {
        Ok(()) => 1,
        Err(Reject::NotAPlacement) => 2,
        Err(Reject::CutOrder(_)) => 4,
        Err(Reject::CutNotViable(_)) => 8,
        Err(Reject::CutWeak(_)) => 16,
        Err(Reject::Nearer(_)) => 32,
        Err(Reject::Exists(_)) => 64,
        Err(Reject::MoreExpanded) => 128,
    })
}

// The reasons against certificates with this claim, these cuts, and the numbers 0 to 6.
fn agree_on(
    alloc: Global,
    task: &Task,
    prefixes: &[Vec<u8>],
    claim: &str,
    cuts: &str,
) -> Result<u8, Fail> {
    let mut seen = 0;
    for expanded in 0..7 {
        let certificate = certificate(alloc, claim, cuts, expanded)?;
        seen |= agreed(alloc, task, prefixes, &certificate)?;
    }
    Ok(seen)
}

const CLAIMS: &str = "none||1|2|12|21|03|30|11";

const CUTS: &str = "|9|909|09|39|0939|3909|0909|09019|091939|092939|0949|09319|2939";

// The reasons against certificates of the task with this claim and each list of cuts.
fn reasons_of_claim(
    alloc: Global,
    task: &Task,
    prefixes: &[Vec<u8>],
    claim: &str,
) -> Result<u8, Fail> {
    let mut seen = 0;
    for cuts in CUTS.split('|') {
        seen |= agree_on(alloc, task, prefixes, claim, cuts)?;
    }
    Ok(seen)
}

// The same with each claim.
fn reasons_of_task(alloc: Global, task: &Task) -> Result<u8, Fail> {
    let prefixes = all_prefixes(alloc, task.items().len().min(2))?;
    let mut seen = 0;
    for claim in CLAIMS.split('|') {
        seen |= reasons_of_claim(alloc, task, prefixes.as_slice(), claim)?;
    }
    Ok(seen)
}

/// Small tasks, with a `#` between two of them: edits of the worked task, behind a name.
const SMALL_TASKS: &str = "the worked task#\
a window of one index|-100.00000 100.00000=>0.00000 0.00000#\
two twins|item AKE10002XX 800=>item AKE10002XX 1000#\
an excluding pair|item AKE10001XX=>exclude 12 41\nitem AKE10001XX#\
equal distances|ideal 50.00000 50.00000=>ideal 0.00000 100.00000#\
one container|item AKE10001XX 1000\nitem AKE10002XX 800=>item AKE10001XX 700#\
no container|item AKE10001XX 1000\nitem AKE10002XX 800\n=>#\
loose loads over a limit|item AKE10001XX=>combined 99 11 51\nitem AKE10001XX|base=>loose 51 100\nbase";

// The reasons against many certificates of the small tasks.
fn all_reasons(alloc: Global) -> Result<u8, Fail> {
    let mut seen = 0;
    for edits in SMALL_TASKS.split('#') {
        seen |= reasons_of_task(alloc, &task_with(alloc, edits)?)?;
    }
    Ok(seen)
}

// All eight reasons are among them.
#[test]
fn a_check_says_what_the_definition_says(rt: HostRuntime) -> Result<(), Fail> {
    assert_eq!(rt; all_reasons(rt.alloc())?, 255);
    Ok(())
}
