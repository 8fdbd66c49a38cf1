//! Writing a text, piece by piece.
ghost use Rattle.std.specs.Prelude.{◌≡◌, ◌<◌, ◌≤◌, [], ◌∷◌, ◌++◌, length, codes, IfOk, OnOk, OnErr};
ghost use Rattle.mass_units.specs.Spelling.{number_text, signed_text, index_text, short_index_text, sign_text, with_sign, two_digits, hundredths_text};
ghost use Rattle.telex.specs.Text.{line_feed, space};

use crate::reading::LINE_FEED;
use base_words::NoMemory;
use itoa::Buffer;
use mass_units::{Kg, Ticks, write_number, write_ticks2, write_ticks5};
use std::alloc::Global;
use std::marker::Model;

/// The minus of a number below zero.
fn minus_of(n: i128) -> &'static [u8]
    ensures value { result.now ≡ sign_text n }
    ensures short { length result.now ≤ 1 }
{
    if n < 0 { b"-" } else { b"" }
}

/// The point, and a number below 100 as two decimals.
fn two_decimals(n: u8) -> [u8; 3]
    requires { n < 100 }
    ensures { result ≡ codes "." ++ two_digits n }
{
    [b'.', b'0' + n / 10, b'0' + n % 10]
}

/// A text that is being written. A call that runs out of memory leaves it unchanged.
#[derive(Debug, Drop)]
pub struct Builder {
    alloc: Global,
    bytes: Vec<u8>,
}

impl Model for Builder {
    ghost use Rattle.std.specs.Prelude.{List, ℕ};

    ghost Value = { List ℕ };

    ghost view = { λ builder. builder.bytes.items };
}

impl Builder {
    /// An empty text. It allocates nothing yet.
    pub fn new(alloc: Global) -> Builder
        ensures { result ≡ [] }
    {
        Builder {
            alloc,
            bytes: Vec::new(alloc),
        }
    }

    /// An empty text with room for so many bytes, of which more may be written. It fails where memory runs out.
    pub fn with_capacity(alloc: Global, capacity: usize) -> Result<Builder, NoMemory>
        ensures { IfOk result (λ builder. builder ≡ []) }
    {
        Ok(Builder {
            alloc,
            bytes: Vec::with_capacity(alloc, capacity)?,
        })
    }

    /// Appends a piece unchanged.
    pub fn text(&mut self, piece: &[u8]) -> Result<(), NoMemory>
        ensures added { OnOk result (self.new ≡ self.old ++ piece.now) }
        ensures kept { OnErr result (self.new ≡ self.old) }
    {
        self.bytes.extend_from_slice(piece)?;
        Ok(())
    }

    /// Appends a space and the word.
    pub fn word(&mut self, word: &[u8]) -> Result<(), NoMemory>
        ensures added { OnOk result (self.new ≡ self.old ++ space ∷ word.now) }
        ensures kept { OnErr result (self.new ≡ self.old) }
    {
        self.bytes.reserve(word.len() + 1)?;
        self.bytes.push_reserved(b' ');
        for byte in word {
            self.bytes.push_reserved(*byte);
        }
        Ok(())
    }

    /// Appends a number in decimal, with a minus sign if it is below zero.
    pub fn number(&mut self, n: i64) -> Result<(), NoMemory>
        ensures added { OnOk result (self.new ≡ self.old ++ signed_text n) }
        ensures kept { OnErr result (self.new ≡ self.old) }
    {
        let mut buffer = Buffer::new();
        self.text(buffer.format(n).as_bytes())
    }

    /// Appends a number that is never below zero, such as a count or a place, in decimal.
    pub fn count(&mut self, n: u64) -> Result<(), NoMemory>
        ensures added { OnOk result (self.new ≡ self.old ++ number_text n) }
        ensures kept { OnErr result (self.new ≡ self.old) }
    {
        write_number(self.alloc, n, &mut self.bytes)
    }

    /// Appends a sum of counts or masses, which may be greater than what a type of its parts holds.
    pub fn sum(&mut self, total: u128) -> Result<(), NoMemory>
        ensures added { OnOk result (self.new ≡ self.old ++ number_text total) }
        ensures kept { OnErr result (self.new ≡ self.old) }
    {
        let mut buffer = Buffer::new();
        self.text(buffer.format(total).as_bytes())
    }

    /// Appends a mass in kilograms.
    pub fn mass(&mut self, mass: Kg) -> Result<(), NoMemory>
        ensures added { OnOk result (self.new ≡ self.old ++ number_text mass.0) }
        ensures kept { OnErr result (self.new ≡ self.old) }
    {
        self.count(u64::from(mass.0))
    }

    /// Appends an index with all five decimals.
    pub fn index(&mut self, index: Ticks) -> Result<(), NoMemory>
        ensures added { OnOk result (self.new ≡ self.old ++ index_text index.0) }
        ensures kept { OnErr result (self.new ≡ self.old) }
    {
        write_ticks5(self.alloc, index, &mut self.bytes)
    }

    /// Appends an index with two decimals, a half away from zero.
    pub fn short_index(&mut self, index: Ticks) -> Result<(), NoMemory>
        ensures added { OnOk result (self.new ≡ self.old ++ short_index_text index.0) }
        ensures kept { OnErr result (self.new ≡ self.old) }
    {
        write_ticks2(self.alloc, index, &mut self.bytes)
    }

    /// Appends a number of hundredths with two decimals, as `25.79` for 2579. Zero has no sign.
    pub fn hundredths(&mut self, n: i128) -> Result<(), NoMemory>
        ensures added { OnOk result (self.new ≡ self.old ++ with_sign hundredths_text n) }
        ensures kept { OnErr result (self.new ≡ self.old) }
    {
        let size = n.unsigned_abs();
        let mut buffer = Buffer::new();
        let whole = buffer.format(size / 100).as_bytes();
        let decimals = two_decimals((size % 100) as u8);
        self.bytes.reserve(1 + whole.len() + decimals.len())?;
        self.bytes.extend_from_slice(minus_of(n))?;
        self.bytes.extend_from_slice(whole)?;
        self.bytes.extend_from_slice(&decimals)?;
        Ok(())
    }

    /// Ends the line.
    pub fn end_line(&mut self) -> Result<(), NoMemory>
        ensures added { OnOk result (self.new ≡ self.old ++ line_feed ∷ []) }
        ensures kept { OnErr result (self.new ≡ self.old) }
    {
        self.text(&[LINE_FEED])
    }

    /// The bytes that were appended, in order.
    pub fn finish(self) -> Vec<u8>
        ensures { result.items ≡ self }
    {
        self.bytes
    }
}
