//! The line that says that a task is not decided.

ghost use Rattle.std.specs.Prelude.{◌≡◌, ◌++◌, ◌∷◌, [], IfOk, OnOk};
ghost use Rattle.text_lines.specs.Lines.{text_of};
ghost use Rattle.task_answers.specs.ReplyText.{number_line, undecided_text};

use base_words::NoMemory;
use std::alloc::Global;
use telex::Builder;

/// Appends the line of a word and a number.
pub fn push_number_line(out: &mut Builder, word: &[u8], number: u64) -> Result<(), NoMemory>
    ensures { OnOk result (out.new ≡ out.old ++ text_of (number_line word.now number ∷ [])) }
{
    out.text(word)?;
    out.text(b" ")?;
    out.count(number)?;
    out.end_line()
}

/// `UNDECIDED` with the number of looks.
pub fn undecided_line(alloc: Global, looks: u32) -> Result<Vec<u8>, NoMemory>
    ensures { IfOk result (λ text. text.items ≡ undecided_text looks) }
{
    let mut out = Builder::new(alloc);
    push_number_line(&mut out, b"UNDECIDED", u64::from(looks))?;
    Ok(out.finish())
}
