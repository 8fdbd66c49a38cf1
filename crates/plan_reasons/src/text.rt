//! The text that says why a task has no plan.

ghost use Rattle.std.specs.Prelude.{◌≡◌, ◌≤◌, ◌++◌, codes, IfOk, OnOk};
ghost use Rattle.plan_reasons.specs.WhyText.{number_at, least_text, is_unknown, unknown_text, unknown_in, reasons_text, why_text};

use crate::finding::{Finding, Least, TriedLimit};
use crate::limit::{TaskLimit, combined_most, cumulative_most, high_of, lateral_most, low_of};
use crate::limit_text::push_limit;
use crate::reasons::{Reasons, Why};
use crate::unfit::{begins_short_kind, is_unfit, offered_of_kind, positions_for_kind};
use base_words::NoMemory;
use hold_limits::{Item, Task};
use mass_units::Ticks;
use std::alloc::Global;
use telex::Builder;
use text_lines::{EntryWriter, write_run};

/// The containers that no position accepts, a line for each.
#[derive(Clone, Copy)]
struct UnfitLines<'a>(&'a Task);

impl EntryWriter for UnfitLines<'_> {
    ghost use Rattle.plan_reasons.specs.WhyText.{unfit_text};

    type Entry = Item;

    ghost text = { λ w. unfit_text w.0.now };

    ghost spelled = { λ _ _. Unit {0} };

    fn write(&self, item: &Item, out: &mut Builder) -> Result<(), NoMemory> {
        if is_unfit(self.0, item) {
            out.text(b"UNFIT")?;
            out.word(item.id.bytes())?;
            out.end_line()?;
        }
        Ok(())
    }
}

/// The kinds for which there are too few positions, a line for each.
#[derive(Clone, Copy)]
struct ShortLines<'a>(&'a Task);

impl EntryWriter for ShortLines<'_> {
    ghost use Rattle.plan_reasons.specs.WhyText.{short_text};

    type Entry = Item;

    ghost text = { λ w. short_text w.0.now };

    ghost spelled = { λ _ _. Unit {0} };

    fn write(&self, item: &Item, out: &mut Builder) -> Result<(), NoMemory> {
        if begins_short_kind(self.0, item) {
            out.text(b"SHORT")?;
            out.word(item.id.kind())?;
            out.text(b" ")?;
            out.count(offered_of_kind(self.0, item) as u64)?;
            out.text(b" ")?;
            out.count(positions_for_kind(self.0, item) as u64)?;
            out.end_line()?;
        }
        Ok(())
    }
}

/// Appends the limit's number, where it is loosened by so much.
fn push_number(out: &mut Builder, task: &Task, limit: TaskLimit, step: u32) -> Result<(), NoMemory>
    ensures { OnOk result (out.new ≡ out.old ++ number_at task.now limit step) }
{
    match limit {
        TaskLimit::Exclude(_) => Ok(()),
        TaskLimit::Combined(at) => out.count(u64::from(combined_most(task, at)) + u64::from(step)),
        TaskLimit::Cumulative(at) => out.count(
            u64::from(cumulative_most(task, at)) + u64::from(step),
        ),
        TaskLimit::Lateral => out.count(u64::from(lateral_most(task)) + u64::from(step)),
        TaskLimit::WindowLow => out.index(Ticks(low_of(task).0 - i64::from(step))),
        TaskLimit::WindowHigh => out.index(Ticks(high_of(task).0 + i64::from(step))),
    }
}

/// Appends ` AT NUMBER`, where the least change is known.
fn push_least(
    out: &mut Builder,
    task: &Task,
    limit: TaskLimit,
    least: Least,
) -> Result<(), NoMemory>
    ensures { OnOk result (out.new ≡ out.old ++ least_text task.now limit least) }
{
    let Least::Step(step) = least else {
        return Ok(());
    };
    out.text(b" AT ")?;
    push_number(out, task, limit, step)
}

/// The limits without which the task has a plan, a line for each.
#[derive(Clone, Copy)]
struct WithoutLines<'a>(&'a Task);

impl EntryWriter for WithoutLines<'_> {
    ghost use Rattle.plan_reasons.specs.WhyText.{without_text};

    type Entry = TriedLimit;

    ghost text = { λ w. without_text w.0.now };

    ghost spelled = { λ _ _. Unit {0} };

    fn write(&self, it: &TriedLimit, out: &mut Builder) -> Result<(), NoMemory> {
        let Finding::Helps(least) = it.finding else {
            return Ok(());
        };
        out.text(b"WITHOUT ")?;
        push_limit(out, self.0, it.limit)?;
        push_least(out, self.0, it.limit, least)?;
        out.end_line()
    }
}

/// Whether something about the limit was not decided.
fn is_unknown(it: &TriedLimit) -> bool
    ensures { result ≡ is_unknown it.now.finding }
{
    match it.finding {
        Finding::Helps(Least::Open) | Finding::Open => true,
        _ => false,
    }
}

/// How many questions about the limits were not decided.
pub fn unknown_in(reasons: &Reasons) -> usize
    ensures { result ≡ unknown_in reasons.now }
{
    reasons.tried.iter().filter(|it| is_unknown(it)).count()
}

/// Appends `UNKNOWN n`, where so many questions were not decided.
fn push_unknown(out: &mut Builder, count: u64) -> Result<(), NoMemory>
    ensures { OnOk result (out.new ≡ out.old ++ unknown_text count) }
{
    if count == 0 {
        return Ok(());
    }
    out.text(b"UNKNOWN ")?;
    out.count(count)?;
    out.end_line()
}

/// The text of the reasons, where so many other questions were not decided.
fn write_reasons(
    alloc: Global,
    task: &Task,
    reasons: &Reasons,
    others: u64,
) -> Result<Vec<u8>, NoMemory>
    requires { others ≤ 1 }
    ensures { IfOk result (λ text. text.items ≡ reasons_text task.now reasons.now others) }
{
    let mut out = Builder::new(alloc);
    write_run(&UnfitLines(task), task.items(), &mut out)?;
    write_run(&ShortLines(task), task.items(), &mut out)?;
    write_run(&WithoutLines(task), reasons.tried.as_slice(), &mut out)?;
    push_unknown(&mut out, unknown_in(reasons) as u64 + others)?;
    out.text(b"END\n")?;
    Ok(out.finish())
}

/// The text that there is a plan.
fn write_plan(alloc: Global) -> Result<Vec<u8>, NoMemory>
    ensures { IfOk result (λ text. text.items ≡ codes "PLAN\nEND\n") }
{
    let mut out = Builder::new(alloc);
    out.text(b"PLAN\nEND\n")?;
    Ok(out.finish())
}

/// The text that says why the task has no plan.
pub fn write_why(alloc: Global, task: &Task, why: &Why) -> Result<Vec<u8>, NoMemory>
    ensures { IfOk result (λ text. text.items ≡ why_text task.now why.now) }
{
    match why {
        Why::Plan => write_plan(alloc),
        Why::NoPlan(reasons) => write_reasons(alloc, task, reasons, 0),
        Why::Open(reasons) => write_reasons(alloc, task, reasons, 1),
    }
}
