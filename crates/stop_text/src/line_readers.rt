//! Readers of the lines before the tasks.

ghost use Rattle.std.specs.Prelude.{◌≡◌, ◌≢◌, IfSome, IfNone};
ghost use Rattle.stop_text.specs.StopFile.{leave_line, IsSpelledLeave};
ghost use Rattle.stop_text.specs.declared.parts.Leave.{Leave};

use crate::parts::Leave;
use base_words::NoMemory;
use hold_limits::Name;
use std::alloc::Global;
use text_lines::{IdWord, Last, LineReader, NameWord, NumberWord, Then, read_fields};

/// The container of a line `leave ID NUMBER`, and its last sector.
fn read_leave(line: &[u8]) -> Option<Leave>
    ensures found { IfSome result (λ leave. IsSpelledLeave leave × (line.now ≡ leave_line leave)) }
    ensures none { IfNone result ((leave : Leave) → IsSpelledLeave leave → line.now ≢ leave_line leave) }
{
    let number = NumberWord { least: 1, most: 3 };
    let (id, sector) = read_fields(b"leave ", &Then(IdWord, Last(number)), line)?;
    Some(Leave {
        id,
        sector: sector as u8,
    })
}

/// `leave ID NUMBER`.
#[derive(Clone, Copy)]
pub struct LeaveLines;

/// `behind NAME NAME`.
#[derive(Clone, Copy)]
pub struct BehindLines;

impl LineReader for LeaveLines {
    ghost use Rattle.stop_text.specs.StopFile.{leave_line, IsSpelledLeave};

    type Entry = Leave;

    ghost text = { λ _. leave_line };

    ghost spelled = { λ _. IsSpelledLeave };

    ghost keep = { λ _ leave. leave };

    fn read(&self, _alloc: Global, line: &[u8]) -> Result<Option<Leave>, NoMemory> {
        Ok(read_leave(line))
    }
}

impl LineReader for BehindLines {
    ghost use Rattle.stop_text.specs.StopFile.{behind_line, IsSpelledBehind};

    type Entry = (Name, Name);

    ghost text = { λ _. behind_line };

    ghost spelled = { λ _. IsSpelledBehind };

    ghost keep = { λ _ pair. pair };

    fn read(&self, _alloc: Global, line: &[u8]) -> Result<Option<(Name, Name)>, NoMemory> {
        Ok(read_fields(b"behind ", &Then(NameWord, Last(NameWord)), line))
    }
}
