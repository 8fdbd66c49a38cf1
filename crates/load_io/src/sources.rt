// Inputs that provide bytes.
ghost use Rattle.std.specs.Prelude.{◌≡◌, ℕ, ◌<◌, ◌≤◌, List, [], length, take, Option, Ok, IfOk, OnOk, OnErr, IfSome};
ghost use Rattle.base_words.specs.Faults.{Rose};
ghost use Rattle.load_io.specs.Source.{Moves};

use crate::Failed;

pub mod memory;
pub mod standard;
pub mod sure;

/// An input that provides bytes in order.
pub trait Source {
    // The bytes that no read has moved out yet, unless the input keeps them hidden.
    ghost left: { Self → Option (List ℕ) };

    // How many reads have failed.
    ghost faults: { Self → ℕ };

    /// Moves the next bytes to the front of the buffer, and returns how many. If the buffer is not empty, none
    /// is the end of the input. The rest of the buffer has no particular contents. A failed read moves nothing.
    fn read(&mut self, buf: &mut [u8]) -> Result<usize, Failed>
        ensures within { IfOk result (λ n. n ≤ length buf.old) }
        ensures moved { IfOk result (λ n. Moves (left self.old) (left self.new) (take n buf.new)) }
        ensures ended { result ≡ Ok 0 → 0 < length buf.old → IfSome (left self.old) (λ bytes. bytes ≡ []) }
        ensures untouched { OnErr result (left self.new ≡ left self.old) }
        ensures length { length buf.new ≡ length buf.old }

        // Only a failure raises the count.
        ensures never_falls { faults self.old ≤ faults self.new }
        ensures uncounted { OnOk result (faults self.new ≡ faults self.old) }
        ensures counted { OnErr result (Rose (faults self.old) (faults self.new)) };
}
