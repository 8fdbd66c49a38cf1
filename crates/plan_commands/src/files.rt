//! Reading the files that a job names.

ghost use Rattle.std.specs.Prelude.{◌≡◌, ◌≢◌, ◌≤◌, Err, IfOk, IfErr, IfSome, length};
ghost use Rattle.base_words.specs.Faults.{Rose};
ghost use Rattle.load_io.specs.Shelf.{IsWhole, HasMoreThan};
ghost use Rattle.plan_answers.specs.ReplyText.{long_text};
ghost use Rattle.plan_answers.specs.Limits.{longest_task, longest_certificate, longest_priced};
ghost use Rattle.tree_certificate.specs.Listed.{listed_trees};
ghost use Rattle.plan_answers.specs.NearReply.{IsCertificateIn, IsCertificateRefusal};
ghost use Rattle.plan_answers.specs.TreeReply.{AreTreesIn, IsTreeRefusal};
ghost use Rattle.plan_answers.specs.PricedReply.{IsPricedIn, IsPricedRefusal};
ghost use Rattle.plan_answers.specs.StopReply.{IsStopsIn, IsStopRefusal};
ghost use Rattle.plan_answers.specs.AnyReply.{any_listed, IsAnyIn, IsAnyRefusal};
ghost use Rattle.plan_commands.specs.Reply.{IsTaskIn, IsRefusal, IsTaskFile, IsRefusedTask, IsCertificateFile, IsRefusedCertificate, IsAnyFile, IsRefusedAny, IsPricedFile, IsRefusedPriced, IsStopsFile, IsRefusedStopsFile};
ghost use Rattle.plan_commands.specs.Halts.{IfBadInput};

use crate::ending::Halt;
use certificate::{Certificate, read_certificate};
use hold_limits::Task;
use load_io::{Shelf, ShelfFault};
use plan_answers::{
    AnyCertificate, LONGEST_CERTIFICATE, LONGEST_PRICED, LONGEST_TASK, begins_with_cuts,
    line_of_certificate_fault, line_of_fault, line_of_stop_fault, two_word_line,
};
use priced_certificate::{PricedCertificate, read_priced};
use problem_text::read_task;
use std::alloc::Global;
use stop_tasks::StopTask;
use stop_text::read_stops;
use tree_certificate::{TreeCertificate, read_trees};

/// The refusal of a file that is too long.
fn too_long(alloc: Global) -> Halt
    ensures line { IfBadInput result (λ line. line ≡ long_text) }
    ensures unread { result ≢ Halt.ReadFault }
{
    match two_word_line(alloc, b"INPUT", b"LONG") {
        Ok(line) => Halt::BadInput(line),
        Err(_) => Halt::NoMemory,
    }
}

/// The bytes of a file, which are at most so many.
pub fn bytes_from<F: Shelf>(
    alloc: Global,
    shelf: &mut F,
    name: &str,
    most: usize,
) -> Result<Vec<u8>, Halt>
    ensures whole { IfOk result (λ bytes. IsWhole (F.files shelf.old) name.now bytes.items) }
    ensures short { IfOk result (λ bytes. length bytes.items ≤ most) }
    ensures long { IfErr result (λ halt. IfBadInput halt (λ _. HasMoreThan (F.files shelf.old) name.now most)) }
    ensures line { IfErr result (λ halt. IfBadInput halt (λ line. line ≡ long_text)) }
    ensures counted { result ≡ Err Halt.ReadFault → Rose (F.faults shelf.old) (F.faults shelf.new) }
    ensures uncounted { result ≢ Err Halt.ReadFault → F.faults shelf.new ≡ F.faults shelf.old }
    ensures same { F.files shelf.new ≡ F.files shelf.old }
{
    match shelf.read(alloc, name, most) {
        Ok(bytes) => Ok(bytes),
        Err(ShelfFault::TooLong) => Err(too_long(alloc)),
        Err(ShelfFault::Failed) => Err(Halt::ReadFault),
        Err(ShelfFault::NoMemory) => Err(Halt::NoMemory),
    }
}

/// The task that the bytes of a file spell.
fn task_of(alloc: Global, bytes: &[u8]) -> Result<Task, Halt>
    requires { length bytes.now ≤ longest_task }
    ensures read { IfOk result (IsTaskIn bytes.now) }
    ensures refused { IfErr result (λ halt. IfBadInput halt (IsRefusal bytes.now)) }
    ensures unread { result ≢ Err Halt.ReadFault }
{
    match read_task(alloc, bytes) {
        Ok(task) => Ok(task),
        Err(fault) => Err(Halt::BadInput(line_of_fault(alloc, fault)?)),
    }
}

/// The certificate that the bytes of a file spell.
fn certificate_of(alloc: Global, task: &Task, bytes: &[u8]) -> Result<Certificate, Halt>
    requires { length bytes.now ≤ longest_certificate }
    ensures read { IfOk result (IsCertificateIn task.now bytes.now) }
    ensures refused { IfErr result (λ halt. IfBadInput halt (IsCertificateRefusal task.now bytes.now)) }
    ensures unread { result ≢ Err Halt.ReadFault }
{
    match read_certificate(alloc, task, bytes) {
        Ok(certificate) => Ok(certificate),
        Err(fault) => Err(Halt::BadInput(line_of_certificate_fault(alloc, fault)?)),
    }
}

/// The certificate of trees that the bytes of a file spell.
fn trees_of(alloc: Global, task: &Task, bytes: &[u8]) -> Result<TreeCertificate, Halt>
    requires { length bytes.now ≤ longest_certificate }
    ensures read { IfOk result (λ c. AreTreesIn task.now bytes.now (listed_trees c)) }
    ensures refused { IfErr result (λ halt. IfBadInput halt (IsTreeRefusal task.now bytes.now)) }
    ensures unread { result ≢ Err Halt.ReadFault }
{
    match read_trees(alloc, task, bytes) {
        Ok(certificate) => Ok(certificate),
        Err(fault) => Err(Halt::BadInput(line_of_certificate_fault(alloc, fault)?)),
    }
}

/// The certificate of the kind that begins first among the bytes of a file.
fn any_of(alloc: Global, task: &Task, bytes: &[u8]) -> Result<AnyCertificate, Halt>
    requires { length bytes.now ≤ longest_certificate }
    ensures read { IfOk result (λ c. IsAnyIn task.now bytes.now (any_listed c)) }
    ensures refused { IfErr result (λ halt. IfBadInput halt (IsAnyRefusal task.now bytes.now)) }
    ensures unread { result ≢ Err Halt.ReadFault }
{
    if begins_with_cuts(bytes) {
        let cuts = certificate_of(alloc, task, bytes)?;
        return Ok(AnyCertificate::OfCuts(cuts));
    }
    let trees = trees_of(alloc, task, bytes)?;
    Ok(AnyCertificate::OfTrees(trees))
}

/// The certificate with prices that the bytes of a file spell.
fn priced_of(alloc: Global, task: &Task, bytes: &[u8]) -> Result<PricedCertificate, Halt>
    requires { length bytes.now ≤ longest_priced }
    ensures read { IfOk result (IsPricedIn task.now bytes.now) }
    ensures refused { IfErr result (λ halt. IfBadInput halt (IsPricedRefusal task.now bytes.now)) }
    ensures unread { result ≢ Err Halt.ReadFault }
{
    match read_priced(alloc, task, bytes) {
        Ok(certificate) => Ok(certificate),
        Err(fault) => Err(Halt::BadInput(line_of_certificate_fault(alloc, fault)?)),
    }
}

/// The load over several sectors that the bytes of a file spell.
fn stops_of(alloc: Global, bytes: &[u8]) -> Result<StopTask, Halt>
    requires { length bytes.now ≤ longest_task }
    ensures read { IfOk result (IsStopsIn bytes.now) }
    ensures refused { IfErr result (λ halt. IfBadInput halt (IsStopRefusal bytes.now)) }
    ensures unread { result ≢ Err Halt.ReadFault }
{
    match read_stops(alloc, bytes) {
        Ok(stops) => Ok(stops),
        Err(fault) => Err(Halt::BadInput(line_of_stop_fault(alloc, fault)?)),
    }
}

/// The task in a file.
pub fn task_from<F: Shelf>(alloc: Global, shelf: &mut F, name: &str) -> Result<Task, Halt>
    ensures read { IfOk result (λ task. IfSome (F.files shelf.old) (λ files. IsTaskFile files name.now task)) }
    ensures refused { IfErr result (λ halt. IfBadInput halt
        (λ line. IfSome (F.files shelf.old) (λ files. IsRefusedTask files name.now line))) }
    ensures counted { result ≡ Err Halt.ReadFault → Rose (F.faults shelf.old) (F.faults shelf.new) }
    ensures uncounted { result ≢ Err Halt.ReadFault → F.faults shelf.new ≡ F.faults shelf.old }
    ensures same { F.files shelf.new ≡ F.files shelf.old }
{
    let bytes = bytes_from(alloc, shelf, name, LONGEST_TASK)?;
    task_of(alloc, bytes.as_slice())
}

/// The certificate in a file, for a task.
pub fn certificate_from<F: Shelf>(
    alloc: Global,
    shelf: &mut F,
    task: &Task,
    name: &str,
) -> Result<Certificate, Halt>
    ensures read { IfOk result
        (λ c. IfSome (F.files shelf.old) (λ files. IsCertificateFile files name.now task.now c)) }
    ensures refused { IfErr result (λ halt. IfBadInput halt
        (λ line. IfSome (F.files shelf.old) (λ files. IsRefusedCertificate files name.now task.now line))) }
    ensures counted { result ≡ Err Halt.ReadFault → Rose (F.faults shelf.old) (F.faults shelf.new) }
    ensures uncounted { result ≢ Err Halt.ReadFault → F.faults shelf.new ≡ F.faults shelf.old }
    ensures same { F.files shelf.new ≡ F.files shelf.old }
{
    let bytes = bytes_from(alloc, shelf, name, LONGEST_CERTIFICATE)?;
    certificate_of(alloc, task, bytes.as_slice())
}

/// The certificate of either kind in a file, for a task.
pub fn any_from<F: Shelf>(
    alloc: Global,
    shelf: &mut F,
    task: &Task,
    name: &str,
) -> Result<AnyCertificate, Halt>
    ensures read { IfOk result
        (λ c. IfSome (F.files shelf.old) (λ files. IsAnyFile files name.now task.now (any_listed c))) }
    ensures refused { IfErr result (λ halt. IfBadInput halt
        (λ line. IfSome (F.files shelf.old) (λ files. IsRefusedAny files name.now task.now line))) }
    ensures counted { result ≡ Err Halt.ReadFault → Rose (F.faults shelf.old) (F.faults shelf.new) }
    ensures uncounted { result ≢ Err Halt.ReadFault → F.faults shelf.new ≡ F.faults shelf.old }
    ensures same { F.files shelf.new ≡ F.files shelf.old }
{
    let bytes = bytes_from(alloc, shelf, name, LONGEST_CERTIFICATE)?;
    any_of(alloc, task, bytes.as_slice())
}

/// The certificate with prices in a file, for a task.
pub fn priced_from<F: Shelf>(
    alloc: Global,
    shelf: &mut F,
    task: &Task,
    name: &str,
) -> Result<PricedCertificate, Halt>
    ensures read { IfOk result
        (λ c. IfSome (F.files shelf.old) (λ files. IsPricedFile files name.now task.now c)) }
    ensures refused { IfErr result (λ halt. IfBadInput halt
        (λ line. IfSome (F.files shelf.old) (λ files. IsRefusedPriced files name.now task.now line))) }
    ensures counted { result ≡ Err Halt.ReadFault → Rose (F.faults shelf.old) (F.faults shelf.new) }
    ensures uncounted { result ≢ Err Halt.ReadFault → F.faults shelf.new ≡ F.faults shelf.old }
    ensures same { F.files shelf.new ≡ F.files shelf.old }
{
    let bytes = bytes_from(alloc, shelf, name, LONGEST_PRICED)?;
    priced_of(alloc, task, bytes.as_slice())
}

/// The load over several sectors in a file.
pub fn stops_from<F: Shelf>(alloc: Global, shelf: &mut F, name: &str) -> Result<StopTask, Halt>
    ensures read { IfOk result (λ t. IfSome (F.files shelf.old) (λ files. IsStopsFile files name.now t)) }
    ensures refused { IfErr result (λ halt. IfBadInput halt
        (λ line. IfSome (F.files shelf.old) (λ files. IsRefusedStopsFile files name.now line))) }
    ensures counted { result ≡ Err Halt.ReadFault → Rose (F.faults shelf.old) (F.faults shelf.new) }
    ensures uncounted { result ≢ Err Halt.ReadFault → F.faults shelf.new ≡ F.faults shelf.old }
    ensures same { F.files shelf.new ≡ F.files shelf.old }
{
    let bytes = bytes_from(alloc, shelf, name, LONGEST_TASK)?;
    stops_of(alloc, bytes.as_slice())
}
