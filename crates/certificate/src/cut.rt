//! Cuts of any kind of certificate.

ghost use Rattle.std.specs.Prelude.{◌≡◌, ℕ, List};

use hold_limits::Path;

/// A prefix at which a search turned back, perhaps with what shows that it may.
pub trait Cut {
    // The numbers of the prefix.
    ghost prefix_of: { Self → List ℕ };

    /// The prefix.
    fn prefix(&self) -> &Path
        ensures { result.now.items ≡ prefix_of self.now };
}

impl Cut for Path {
    ghost prefix_of = { λ path. path.items };

    fn prefix(&self) -> &Path {
        self
    }
}
