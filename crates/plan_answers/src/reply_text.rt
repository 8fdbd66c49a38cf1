//! The texts that the program prints beside the answers of the search.

ghost use Rattle.std.specs.Prelude.{◌≡◌, ◌∷◌, [], IfOk};
ghost use Rattle.plan_text.specs.PlanText.{one_line};
ghost use Rattle.plan_answers.specs.ReplyText.{hold_fault_number, task_fault_number, stop_fault_number, input_text, good_text, rejected_at_text, rejected_text, IsFaultLine, IsStopFaultLine, IsCertificateFaultLine, IsTreeRejectionLine};
ghost use Rattle.text_lines.specs.Lines.{text_of};
ghost use Rattle.certificate.specs.CertificateText.{path_line};

use base_words::NoMemory;
use certificate::{CertFault, Claim, push_path};
use hold_limits::{HoldFault, Path, Task, TaskFault};
use priced_checker::PricedReject;
use problem_text::TextFault;
use std::alloc::Global;
use stop_tasks::StopFault;
use stop_text::StopTextFault;
use task_answers::push_number_line;
use telex::Builder;
use tree_checker::TreeRejection;

/// A line of one word. The only error is that memory ran out.
pub fn word_line(alloc: Global, word: &[u8]) -> Result<Vec<u8>, NoMemory>
    ensures { IfOk result (λ text. text.items ≡ one_line (word.now ∷ [])) }
{
    let mut out = Builder::new(alloc);
    out.text(word)?;
    out.end_line()?;
    Ok(out.finish())
}

/// A line of two words, with a space between. The only error is that memory ran out.
pub fn two_word_line(alloc: Global, first: &[u8], second: &[u8]) -> Result<Vec<u8>, NoMemory>
    ensures { IfOk result (λ text. text.items ≡ one_line (first.now ∷ second.now ∷ [])) }
{
    let mut out = Builder::new(alloc);
    out.text(first)?;
    out.word(second)?;
    out.end_line()?;
    Ok(out.finish())
}

/// `INPUT KIND n`.
fn input_line(alloc: Global, kind: &[u8], number: u64) -> Result<Vec<u8>, NoMemory>
    ensures { IfOk result (λ text. text.items ≡ input_text kind.now number) }
{
    let mut out = Builder::new(alloc);
    out.text(b"INPUT ")?;
    push_number_line(&mut out, kind, number)?;
    Ok(out.finish())
}

fn number_of_hold_fault(fault: HoldFault) -> u64
    ensures { result ≡ hold_fault_number fault }
{
    match fault {
        HoldFault::Positions(_) => 1,
        HoldFault::SameName(_) => 2,
        HoldFault::Influence(_) => 3,
        HoldFault::Fits(_) => 4,
        HoldFault::FitMass(_) => 5,
        HoldFault::TooMany => 6,
        HoldFault::Exclude(_) => 7,
        HoldFault::Combined(_) => 8,
        HoldFault::Cumulative(_) => 9,
        HoldFault::Side(_) => 10,
    }
}

fn number_of_task_fault(fault: TaskFault) -> u64
    ensures { result ≡ task_fault_number fault }
{
    match fault {
        TaskFault::TooManyItems => 1,
        TaskFault::DuplicateId(_) => 2,
        TaskFault::ItemTooHeavy(_) => 3,
        TaskFault::LooseNotBulk(_) => 4,
        TaskFault::LooseTwice(_) => 5,
        TaskFault::LooseTooHeavy(_) => 6,
        TaskFault::Range(_) => 7,
    }
}

fn number_of_stop_fault(fault: StopFault) -> u64
    ensures { result ≡ stop_fault_number fault }
{
    match fault {
        StopFault::Sectors(_) => 1,
        StopFault::Holds(_) => 2,
        StopFault::Leaves => 3,
        StopFault::Aboard(_) => 4,
        StopFault::Behind(_) => 5,
    }
}

/// The line that reports a fault of a task's text. That memory ran out is no fault of it, and is passed on.
pub fn line_of_fault(alloc: Global, fault: TextFault) -> Result<Vec<u8>, NoMemory>
    ensures { IfOk result (λ text. IsFaultLine fault text.items) }
{
    match fault {
        TextFault::Line(number) => input_line(alloc, b"LINE", number as u64),
        TextFault::NoEnd => two_word_line(alloc, b"INPUT", b"END"),
        TextFault::Hold(fault) => input_line(alloc, b"HOLD", number_of_hold_fault(fault)),
        TextFault::Task(fault) => input_line(alloc, b"TASK", number_of_task_fault(fault)),
        TextFault::NoMemory => Err(NoMemory),
    }
}

/// The line that reports a fault of the text of a load over several sectors. That memory ran out is no fault of it, and
/// is passed on.
pub fn line_of_stop_fault(alloc: Global, fault: StopTextFault) -> Result<Vec<u8>, NoMemory>
    ensures { IfOk result (λ text. IsStopFaultLine fault text.items) }
{
    match fault {
        StopTextFault::Line(number) => input_line(alloc, b"LINE", number as u64),
        StopTextFault::NoEnd => two_word_line(alloc, b"INPUT", b"END"),
        StopTextFault::Task(_, fault) => line_of_fault(alloc, fault),
        StopTextFault::Stop(fault) => input_line(alloc, b"STOPS", number_of_stop_fault(fault)),
        StopTextFault::NoMemory => Err(NoMemory),
    }
}

/// The line that reports a fault of a certificate's text. That memory ran out is no fault of it, and is passed on.
pub fn line_of_certificate_fault(alloc: Global, fault: CertFault) -> Result<Vec<u8>, NoMemory>
    ensures { IfOk result (λ text. IsCertificateFaultLine fault text.items) }
{
    match fault {
        CertFault::NoStart => two_word_line(alloc, b"INPUT", b"START"),
        CertFault::Line(number) => input_line(alloc, b"LINE", number as u64),
        CertFault::NoEnd => two_word_line(alloc, b"INPUT", b"END"),
        CertFault::NoMemory => Err(NoMemory),
    }
}

/// `GOOD BEST` or `GOOD NONE`.
pub fn good_line(alloc: Global, claim: &Claim) -> Result<Vec<u8>, NoMemory>
    ensures { IfOk result (λ text. text.items ≡ good_text claim.now) }
{
    match claim {
        Claim::Best(_) => two_word_line(alloc, b"GOOD", b"BEST"),
        Claim::NoneFits => two_word_line(alloc, b"GOOD", b"NONE"),
    }
}

/// `REJECTED k AT`.
fn rejected_at(alloc: Global, reason: u64, at: usize) -> Result<Vec<u8>, NoMemory>
    ensures { IfOk result (λ text. text.items ≡ rejected_at_text reason at) }
{
    let mut out = Builder::new(alloc);
    out.text(b"REJECTED ")?;
    out.count(reason)?;
    out.text(b" ")?;
    out.count(at as u64)?;
    out.end_line()?;
    Ok(out.finish())
}

/// A word, and the names of a path's positions.
fn named_path(alloc: Global, task: &Task, word: &[u8], path: &Path) -> Result<Vec<u8>, NoMemory>
    ensures { IfOk result (λ text. text.items
        ≡ text_of (path_line word.now task.now.hold.positions path.now.items ∷ [])) }
{
    let mut out = Builder::new(alloc);
    push_path(&mut out, task.hold(), word, path)?;
    Ok(out.finish())
}

/// `REJECTED`, with the number of the reason, and with its place or the names of its path's positions.
pub fn rejected_line(alloc: Global, task: &Task, reason: &PricedReject) -> Result<Vec<u8>, NoMemory>
    ensures { IfOk result (λ text. text.items ≡ rejected_text task.now reason.now) }
{
    match reason {
        PricedReject::NotAPlacement => word_line(alloc, b"REJECTED 1"),
        PricedReject::CutOrder(at) => rejected_at(alloc, 2, *at),
        PricedReject::CutNotViable(at) => rejected_at(alloc, 3, *at),
        PricedReject::CutWeak(at) => rejected_at(alloc, 4, *at),
        PricedReject::Nearer(path) => named_path(alloc, task, b"REJECTED 5", path),
        PricedReject::Exists(path) => named_path(alloc, task, b"REJECTED 6", path),
        PricedReject::MoreExpanded => word_line(alloc, b"REJECTED 7"),
        PricedReject::Prices(at) => rejected_at(alloc, 8, *at),
    }
}

/// `REJECTED 4`, with the number of a tree and the place of an operation.
fn rejected_operation(alloc: Global, tree: usize, at: usize) -> Result<Vec<u8>, NoMemory>
    ensures { IfOk result (λ text. IsTreeRejectionLine (TreeRejection.WrongOperation tree at) text.items) }
{
    let mut out = Builder::new(alloc);
    out.text(b"REJECTED 4 ")?;
    out.count(tree as u64)?;
    out.text(b" ")?;
    out.count(at as u64)?;
    out.end_line()?;
    Ok(out.finish())
}

/// `REJECTED`, with the number of the reason against a certificate of trees, and with its places.
pub fn rejected_trees_line(alloc: Global, reason: TreeRejection) -> Result<Vec<u8>, NoMemory>
    ensures { IfOk result (λ text. IsTreeRejectionLine reason text.items) }
{
    match reason {
        TreeRejection::NotAPlacement => word_line(alloc, b"REJECTED 1"),
        TreeRejection::NotAClique(at) => rejected_at(alloc, 2, at),
        TreeRejection::WrongPrices(at) => rejected_at(alloc, 3, at),
        TreeRejection::WrongOperation(tree, at) => rejected_operation(alloc, tree, at),
        TreeRejection::WrongSibling(at) => rejected_at(alloc, 5, at),
        TreeRejection::NoMemory => Err(NoMemory),
    }
}
