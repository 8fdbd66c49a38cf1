// Links, which are read and written.
ghost use Rattle.std.specs.Prelude.{◌≡◌, ℕ, ◌<◌, ◌≤◌, List, [], length, take, Option, Ok, IfOk, OnOk, OnErr, IfSome};
ghost use Rattle.base_words.specs.Faults.{Rose};
ghost use Rattle.load_io.specs.Sink.{Appends, AppendsPart};
ghost use Rattle.load_io.specs.Source.{Moves};

use crate::Failed;

pub mod joined;
pub mod memory;
pub mod stream;
pub mod sure;

/// An input and an output in one, as a connection has them. Each has a count of faults of its own.
pub trait Link {
    // The bytes of the input that no read has moved out yet, unless the link keeps them hidden.
    ghost left: { Self → Option (List ℕ) };

    // The bytes of the output, unless the link keeps them hidden.
    ghost content: { Self → Option (List ℕ) };

    // How many reads have failed.
    ghost read_faults: { Self → ℕ };

    // How many writes have failed.
    ghost write_faults: { Self → ℕ };

    // The names of the references that the link is made of; none where it is made of none. No call exchanges them, so
    // whoever lent them finds behind them what the link was left with.
    ghost references: { Self → List ℕ };

    /// Reads as a [`Source`](crate::Source) does. The output stays as it is.
    fn read(&mut self, buf: &mut [u8]) -> Result<usize, Failed>
        ensures within { IfOk result (λ n. n ≤ length buf.old) }
        ensures moved { IfOk result (λ n. Moves (left self.old) (left self.new) (take n buf.new)) }
        ensures ended { result ≡ Ok 0 → 0 < length buf.old → IfSome (left self.old) (λ bytes. bytes ≡ []) }
        ensures untouched { OnErr result (left self.new ≡ left self.old) }
        ensures length { length buf.new ≡ length buf.old }
        ensures output_kept { content self.new ≡ content self.old }
        ensures writes_kept { write_faults self.new ≡ write_faults self.old }
        ensures same_references { references self.new ≡ references self.old }

        // Only a failure raises the count.
        ensures never_falls { read_faults self.old ≤ read_faults self.new }
        ensures uncounted { OnOk result (read_faults self.new ≡ read_faults self.old) }
        ensures counted { OnErr result (Rose (read_faults self.old) (read_faults self.new)) };

    /// Writes as a [`Sink`](crate::Sink) does. The input stays as it is.
    fn write(&mut self, piece: &[u8]) -> Result<usize, Failed>
        ensures within { IfOk result (λ n. n ≤ length piece.now) }
        ensures takes_some { IfOk result (λ n. 0 < length piece.now → 0 < n) }
        ensures appended { IfOk result (λ n. Appends (content self.old) (content self.new) (take n piece.now)) }
        ensures untouched { OnErr result (content self.new ≡ content self.old) }
        ensures input_kept { left self.new ≡ left self.old }
        ensures reads_kept { read_faults self.new ≡ read_faults self.old }
        ensures same_references { references self.new ≡ references self.old }

        // Only a failure raises the count.
        ensures never_falls { write_faults self.old ≤ write_faults self.new }
        ensures uncounted { OnOk result (write_faults self.new ≡ write_faults self.old) }
        ensures counted { OnErr result (Rose (write_faults self.old) (write_faults self.new)) };
}

/// Writes the whole text to the link, in as many writes as it takes. If it fails, a proper prefix of the text
/// was appended to the output.
pub fn send_all<L: Link>(link: &mut L, text: &[u8]) -> Result<(), Failed>
    ensures whole { OnOk result (Appends (L.content link.old) (L.content link.new) text.now) }
    ensures part { OnErr result (AppendsPart (L.content link.old) (L.content link.new) text.now) }
    ensures input_kept { L.left link.new ≡ L.left link.old }
    ensures reads_kept { L.read_faults link.new ≡ L.read_faults link.old }
    ensures same_references { L.references link.new ≡ L.references link.old }

    // Only a failure raises the count.
    ensures never_falls { L.write_faults link.old ≤ L.write_faults link.new }
    ensures uncounted { OnOk result (L.write_faults link.new ≡ L.write_faults link.old) }
    ensures counted { OnErr result (Rose (L.write_faults link.old) (L.write_faults link.new)) }
{
    let mut at = 0;
    while at < text.len() {
        at += link.write(&text[at..])?;
    }
    Ok(())
}
