//! The kinds of lines that a task may have any number of.

use crate::limit_readers::{read_combined, read_cumulative, read_loose, read_side};
use crate::line_readers::read_item;
use crate::position_reader::read_position;
use base_words::NoMemory;
use hold_limits::{Combined, Cumulative, Item, Loose, Position};
use std::alloc::Global;
use text_lines::{Last, LineReader, Names, PositionWord, Then, read_said};

/// `position NAME COMPARTMENT INFLUENCE KIND MOST KIND MOST ..`, or `bulk NAME COMPARTMENT INFLUENCE`.
#[derive(Clone, Copy)]
pub struct PositionLines;

/// `exclude NAME NAME`.
#[derive(Clone, Copy)]
pub struct ExcludeLines<'r, 'a>(pub &'r Names<'a>);

/// `combined MOST NAME NAME ..`.
#[derive(Clone, Copy)]
pub struct CombinedLines<'r, 'a>(pub &'r Names<'a>);

/// `cumulative forward NAME MOST` or `cumulative aft NAME MOST`.
#[derive(Clone, Copy)]
pub struct CumulativeLines<'r, 'a>(pub &'r Names<'a>);

/// `side NAME left` or `side NAME right`.
#[derive(Clone, Copy)]
pub struct SideLines<'r, 'a>(pub &'r Names<'a>);

/// `item ID MASS`.
#[derive(Clone, Copy)]
pub struct ItemLines;

/// `loose NAME MASS`.
#[derive(Clone, Copy)]
pub struct LooseLines<'r, 'a>(pub &'r Names<'a>);

impl LineReader for PositionLines {
    ghost use Rattle.problem_text.specs.TaskText.{position_line, IsSpelledPosition};

    type Entry = Position;

    ghost text = { λ _. position_line };

    ghost spelled = { λ _. IsSpelledPosition };

    ghost keep = { λ _ q. q };

    fn read(&self, alloc: Global, line: &[u8]) -> Result<Option<Position>, NoMemory> {
        read_position(alloc, line)
    }
}

impl LineReader for ExcludeLines<'_, '_> {
    ghost use Rattle.problem_text.specs.TaskText.{exclude_line, IsSpelledExclude};
    ghost use Rattle.problem_text.specs.PositionNumbers.{keep_pair};

    type Entry = (u8, u8);

    ghost text = { λ r. exclude_line r.0.now.positions.now };

    ghost spelled = { λ r. IsSpelledExclude r.0.now.positions.now };

    ghost keep = { λ _. keep_pair };

    fn read(&self, _alloc: Global, line: &[u8]) -> Result<Option<(u8, u8)>, NoMemory> {
        Ok(read_said(
            b"exclude ",
            &Then(PositionWord(self.0), Last(PositionWord(self.0))),
            line,
        ))
    }
}

impl LineReader for CombinedLines<'_, '_> {
    ghost use Rattle.problem_text.specs.TaskText.{combined_line, IsSpelledCombined};
    ghost use Rattle.problem_text.specs.PositionNumbers.{keep_combined};

    type Entry = Combined;

    ghost text = { λ r. combined_line r.0.now.positions.now };

    ghost spelled = { λ r. IsSpelledCombined r.0.now.positions.now };

    ghost keep = { λ _. keep_combined };

    fn read(&self, alloc: Global, line: &[u8]) -> Result<Option<Combined>, NoMemory> {
        read_combined(alloc, self.0, line)
    }
}

impl LineReader for CumulativeLines<'_, '_> {
    ghost use Rattle.problem_text.specs.TaskText.{cumulative_line, IsSpelledCumulative};
    ghost use Rattle.problem_text.specs.PositionNumbers.{keep_cumulative};

    type Entry = Cumulative;

    ghost text = { λ r. cumulative_line r.0.now.positions.now };

    ghost spelled = { λ r. IsSpelledCumulative r.0.now.positions.now };

    ghost keep = { λ _. keep_cumulative };

    fn read(&self, _alloc: Global, line: &[u8]) -> Result<Option<Cumulative>, NoMemory> {
        Ok(read_cumulative(self.0, line))
    }
}

impl LineReader for SideLines<'_, '_> {
    ghost use Rattle.problem_text.specs.TaskText.{side_line, IsSpelledSide};
    ghost use Rattle.problem_text.specs.PositionNumbers.{keep_side};

    type Entry = (u8, bool);

    ghost text = { λ r. side_line r.0.now.positions.now };

    ghost spelled = { λ r. IsSpelledSide r.0.now.positions.now };

    ghost keep = { λ _. keep_side };

    fn read(&self, _alloc: Global, line: &[u8]) -> Result<Option<(u8, bool)>, NoMemory> {
        Ok(read_side(self.0, line))
    }
}

impl LineReader for ItemLines {
    ghost use Rattle.problem_text.specs.TaskText.{item_line, IsSpelledItem};

    type Entry = Item;

    ghost text = { λ _. item_line };

    ghost spelled = { λ _. IsSpelledItem };

    ghost keep = { λ _ x. x };

    fn read(&self, _alloc: Global, line: &[u8]) -> Result<Option<Item>, NoMemory> {
        Ok(read_item(line))
    }
}

impl LineReader for LooseLines<'_, '_> {
    ghost use Rattle.problem_text.specs.TaskText.{loose_line, IsSpelledLoose};
    ghost use Rattle.problem_text.specs.PositionNumbers.{keep_loose};

    type Entry = Loose;

    ghost text = { λ r. loose_line r.0.now.positions.now };

    ghost spelled = { λ r. IsSpelledLoose r.0.now.positions.now };

    ghost keep = { λ _. keep_loose };

    fn read(&self, _alloc: Global, line: &[u8]) -> Result<Option<Loose>, NoMemory> {
        Ok(read_loose(self.0, line))
    }
}
