//! Reading a message: checking its text, its lines, and the parts of a line.
ghost use Rattle.std.specs.Prelude.{◌≡◌, ℕ, ◌+◌, ◌<◌, ◌≤◌, ◌^◌, ◌↔◌, List, ◌∷◌, length, map, All, IsOk, IfOk, IfSome, IsSomeAnd, IsTrue, MatchOption};
ghost use Rattle.std.specs.Iterator.{YieldsFirstBy, item_count};
ghost use Rattle.std.specs.List.{position};
ghost use Rattle.telex.specs.Lines.{PlacedLine, lines_of, AreLinesOf, IsPrintable};
ghost use Rattle.telex.specs.Parts.{PlacedPart, is_separator, parts_of, ArePartsOf};
ghost use Rattle.telex.specs.declared.reading.TelexFault.{TelexFault};
ghost use Rattle.telex.specs.Text.{longest_line, is_foreign, is_line_feed, bad_byte, long_line, IsEnded, IsTelex, IsRefusedWith};

use base_words::NoMemory;
use std::alloc::Global;
use std::marker::Model;
use thiserror::Error;

/// The byte that ends each line.
pub const LINE_FEED: u8 = b'\n';

/// The length of the longest line in bytes, without its line feed.
pub const LONGEST_LINE: usize = 200;

/// One of the two bytes that separate the elements of a line.
pub const DOT: u8 = b'.';

/// The other byte that separates the elements of a line.
pub const SLASH: u8 = b'/';

/// Why a text is not a message. Where several reasons hold, the first in this order is given.
#[derive(Clone, Copy, Debug, PartialEq, Eq, Error)]
pub enum TelexFault {
    /// The offset of the first byte that is neither a line feed nor printable ASCII.
    #[error("the byte at offset {0} is neither a line feed nor printable ASCII")]
    BadByte(usize),
    /// The number, counted from 1, of the first line of more than [`LONGEST_LINE`] bytes.
    #[error("line {0} is longer than {most} bytes", most = LONGEST_LINE)]
    LineTooLong(usize),
    /// The text is empty, or its last byte is not a line feed.
    #[error("the text does not end with a line feed")]
    NoEnd,
}

/// A text that was checked and can be read line by line.
#[derive(Debug, Drop)]
pub struct Message<'a> {
    text: &'a [u8],
}

impl<'a> Model for Message<'a> {
    ghost use Rattle.std.specs.Prelude.{List, ℕ};

    ghost Value = { List ℕ };

    ghost use Rattle.telex.specs.Text.{IsTelex};

    ghost view = { λ message. message.text.now };

    ghost invariant = { λ message. IsTelex message.text.now };
}

fn is_foreign(byte: u8) -> bool
    ensures { result ≡ is_foreign byte }
{
    byte != LINE_FEED && !(b' '..=b'~').contains(&byte)
}

fn bad_byte(text: &[u8]) -> Option<usize>
    ensures { result ≡ bad_byte text.now }
{
    text.iter().position(|byte| is_foreign(*byte))
}

fn long_line(text: &[u8]) -> Option<usize>
    ensures { result ≡ long_line text.now }
{
    text.split(|byte| *byte == LINE_FEED)
        .position(|line| line.len() > LONGEST_LINE)
        .map(|index| index + 1)
}

fn is_ended(text: &[u8]) -> bool
    ensures { IsTrue result ↔ IsEnded text.now }
{
    text.last() == Some(&LINE_FEED)
}

fn fault_in(text: &[u8]) -> Option<TelexFault>
    ensures { MatchOption result (IsTelex text.now) (IsRefusedWith text.now) }
{
    if let Some(at) = bad_byte(text) {
        return Some(TelexFault::BadByte(at));
    }
    if let Some(line) = long_line(text) {
        return Some(TelexFault::LineTooLong(line));
    }
    if is_ended(text) {
        None
    } else {
        Some(TelexFault::NoEnd)
    }
}

/// Checks a text and returns it as a message that can be read. It allocates nothing.
pub fn cut(text: &[u8]) -> Result<Message<'_>, TelexFault>
    ensures message { IfOk result (λ message. message ≡ text.now) }
    ensures accepted { IsOk result ↔ IsTelex text.now }
    ensures refused { (fault : TelexFault) → (result ≡ Err fault) ↔ IsRefusedWith text.now fault }
{
    match fault_in(text) {
        Some(fault) => Err(fault),
        None => Ok(Message { text }),
    }
}

impl<'a> Message<'a> {
    /// The lines in order, each without its line feed. The items are slices of the text.
    pub fn lines(&self) -> Lines<'a>
        ensures lines { result ≡ lines_of self.now }
        ensures cut { AreLinesOf self.now result }
        ensures only { (others : List PlacedLine) → AreLinesOf self.now others → others ≡ result }
        ensures few { length result < 2 ^ 64 }
        ensures short { All (λ line. length line.text ≤ longest_line) result }
        ensures printable { All (λ line. All IsPrintable line.text) result }
    {
        Lines {
            rest: self.text,
            at: 0,
        }
    }
}

/// The lines of a message, in order.
#[derive(Debug, Drop)]
pub struct Lines<'a> {
    rest: &'a [u8],
    at: usize,
}

impl<'a> Model for Lines<'a> {
    ghost use Rattle.std.specs.Prelude.{List, ◌+◌, ◌<◌, ◌^◌, length};
    ghost use Rattle.telex.specs.Lines.{PlacedLine, lines_from};

    ghost Value = { List PlacedLine };

    ghost view = { λ lines. lines_from lines.at lines.rest.now };

    ghost invariant = { λ lines. lines.at + length lines.rest.now < 2 ^ 64 };
}

fn line_end(rest: &[u8]) -> Option<usize>
    ensures { result ≡ position is_line_feed rest.now }
{
    rest.iter().position(|byte| *byte == LINE_FEED)
}

impl<'a> Iterator for Lines<'a> {
    type Item = Line<'a>;

    ghost use Rattle.telex.specs.Items.{placed_line};

    ghost next_gives = { YieldsFirstBy placed_line (λ lines. lines) };

    ghost remaining = { item_count (λ lines. lines) };

    fn next(&mut self) -> Option<Line<'a>> {
        let rest = self.rest;
        let at = self.at;
        let end = line_end(rest)?;
        self.rest = &rest[end + 1..];
        self.at = at + end + 1;
        Some(Line {
            text: &rest[..end],
            at,
        })
    }
}

/// A line of a message.
#[derive(Clone, Copy, Debug, PartialEq, Eq)]
pub struct Line<'a> {
    /// The bytes without the line feed.
    pub text: &'a [u8],
    /// The line's offset in the message, in bytes.
    pub at: usize,
    // The offset after its line feed is still a number of the type.
    pub ghost countable: { at + length text.now + 1 < 2 ^ 64 },
}

impl<'a> Line<'a> {
    ghost use Rattle.telex.specs.Items.{placed_line, placed_part};
    ghost use Rattle.telex.specs.Elements.{Element, AreElements, line_text, said};

    /// The parts in order, split at each dot and slash. A line with neither is a single part.
    pub fn elements(&self) -> Elements<'a>
        ensures parts { result ≡ parts_of (placed_line self.now) }
        ensures cut { ArePartsOf (placed_line self.now) result }
        ensures only { (others : List PlacedPart)
            → ArePartsOf (placed_line self.now) others → others ≡ result }
        ensures few { length result < 2 ^ 64 }
    {
        Elements {
            rest: Some(self.text),
            before: 0,
            at: self.at,
        }
    }

    /// The parts as a list. Each is a slice of the text still; the list alone takes memory.
    pub fn parts(&self, alloc: Global) -> Result<Vec<Part<'a>>, NoMemory>
        ensures parts { IfOk result (λ parts. map placed_part parts.items ≡ parts_of (placed_line self.now)) }
        ensures joined { IfOk result (λ parts. line_text (said parts.items) ≡ self.now.text.now) }
        ensures elements { IfOk result (λ parts. (elements : List Element) → AreElements elements
            → self.now.text.now ≡ line_text elements → said parts.items ≡ elements) }
    {
        let mut parts = Vec::new(alloc);
        for part in self.elements() {
            parts.push(part)?;
        }
        Ok(parts)
    }
}

/// The bytes between two separators of a line.
#[derive(Clone, Copy, Debug, PartialEq, Eq)]
pub struct Part<'a> {
    /// The separator before the part, 0 for the first of a line.
    pub before: u8,
    /// The bytes, which may be none.
    pub text: &'a [u8],
    /// The part's offset in the message, in bytes.
    pub at: usize,
    // The offset after the part is still a number of the type.
    pub ghost countable: { at + length text.now < 2 ^ 64 },
}

impl<'a> Part<'a> {
    /// The part without the byte that it begins with. None where it begins with another.
    pub fn after_mark(&self, mark: u8) -> Option<Part<'a>>
        ensures text { IfSome result (λ rest. self.now.text.now ≡ mark ∷ rest.text.now) }
        ensures place { IfSome result (λ rest. (rest.before ≡ self.now.before) × (rest.at ≡ self.now.at + 1)) }
        ensures read_back { (text : List ℕ) → self.now.text.now ≡ mark ∷ text
            → IsSomeAnd result (λ rest. rest.text.now ≡ text) }
    {
        match self.text {
            [first, text @ ..] if *first == mark => Some(Part {
                before: self.before,
                text,
                at: self.at + 1,
            }),
            _ => None,
        }
    }
}

/// The parts of a line, in order.
#[derive(Debug, Drop)]
pub struct Elements<'a> {
    // What has not been split yet; none after the last part.
    rest: Option<&'a [u8]>,
    before: u8,
    at: usize,
}

impl<'a> Model for Elements<'a> {
    ghost use Rattle.std.specs.Prelude.{List, ◌+◌, ◌<◌, ◌^◌, length, IfSome};
    ghost use Rattle.telex.specs.Parts.{PlacedPart, parts_left};

    ghost Value = { List PlacedPart };

    ghost view = { λ elements. parts_left elements.before elements.at elements.rest };

    ghost invariant = { λ elements.
        IfSome elements.rest (λ rest. elements.at + length rest.now < 2 ^ 64) };
}

fn part_end(rest: &[u8]) -> Option<usize>
    ensures { result ≡ position is_separator rest.now }
{
    rest.iter().position(|byte| matches!(*byte, DOT | SLASH))
}

impl<'a> Iterator for Elements<'a> {
    type Item = Part<'a>;

    ghost use Rattle.telex.specs.Items.{placed_part};

    ghost next_gives = { YieldsFirstBy placed_part (λ elements. elements) };

    ghost remaining = { item_count (λ elements. elements) };

    fn next(&mut self) -> Option<Part<'a>> {
        let rest = self.rest?;
        let before = self.before;
        let at = self.at;
        match part_end(rest) {
            Some(end) => {
                self.before = rest[end];
                self.at = at + end + 1;
                self.rest = Some(&rest[end + 1..]);
                Some(Part {
                    before,
                    text: &rest[..end],
                    at,
                })
            }
            None => {
                self.rest = None;
                Some(Part {
                    before,
                    text: rest,
                    at,
                })
            }
        }
    }
}
