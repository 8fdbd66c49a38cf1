//! The text of an answer with prices.

ghost use Rattle.std.specs.Prelude.{◌≡◌, IfOk, IfSome, IsNone, IsSome};
ghost use Rattle.hold_limits.specs.Placement.{IsSound};
ghost use Rattle.certificate.specs.Evidence.{claimed};
ghost use Rattle.priced_placer.specs.Answers.{IfBest, IfNoneFits};
ghost use Rattle.priced_placer.specs.AnswerText.{priced_text, priced_answer_text};

use crate::answer::PricedAnswer;
use base_words::NoMemory;
use certificate::Claim;
use hold_limits::Task;
use placer::write_budget;
use plan_text::push_plan;
use priced_certificate::{PricedCertificate, push_priced_certificate};
use std::alloc::Global;
use telex::Builder;

fn certified(alloc: Global, task: &Task, c: &PricedCertificate) -> Result<Vec<u8>, NoMemory>
    requires { IfSome (claimed c.now.claim) (IsSound task.now) }
    ensures { IfOk result (λ text. text.items ≡ priced_text task.now c.now) }
{
    let mut out = Builder::new(alloc);
    match &c.claim {
        Claim::Best(path) => push_plan(&mut out, task, path)?,
        Claim::NoneFits => out.text(b"NONE\n")?,
    }
    push_priced_certificate(&mut out, task, c)?;
    Ok(out.finish())
}

/// The text of an answer to the task: the plan or `NONE`, and then the certificate; or `BUDGET` with the budget.
pub fn write_priced(alloc: Global, task: &Task, a: &PricedAnswer) -> Result<Vec<u8>, NoMemory>
    requires best { IfBest a.now (λ c. IfSome (claimed c.claim) (IsSound task.now)) }
    requires none { IfNoneFits a.now (λ c. IsNone (claimed c.claim)) }
    ensures { IfOk result (λ text. text.items ≡ priced_answer_text task.now a.now) }
{
    match a {
        PricedAnswer::Best(c) | PricedAnswer::NoneFits(c) => certified(alloc, task, c),
        PricedAnswer::Budget(budget) => write_budget(alloc, *budget),
    }
}
