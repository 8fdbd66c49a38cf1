//! Certificates of either kind, and which kind a text has.

ghost use Rattle.std.specs.Prelude.{◌↔◌, IsTrue};
ghost use Rattle.task_answers.specs.Kinds.{BeginsWithCuts};

use certificate::Certificate;
use text_lines::Lines;
use tree_certificate::TreeCertificate;

/// The line with which a certificate of cuts begins.
const CUTS_START: &[u8] = b"CERTIFICATE 1";

/// The line with which a certificate of trees begins.
const TREES_START: &[u8] = b"CERTIFICATE 3";

/// A certificate of either kind.
#[derive(Debug, Drop)]
pub enum AnyCertificate {
    /// One of cuts, which the best-first search ends with.
    OfCuts(Certificate),
    /// One of trees, which the search by trees ends with.
    OfTrees(TreeCertificate),
}

/// Whether the first line of the text that begins a certificate of either kind begins one of cuts. A text
/// without such a line counts as one of trees.
pub fn begins_with_cuts(text: &[u8]) -> bool
    ensures { IsTrue result ↔ BeginsWithCuts text.now }
{
    let mut lines = Lines::new(text);
    while let Some((line, after)) = lines.split_first() {
        if line == CUTS_START {
            return true;
        }
        if line == TREES_START {
            return false;
        }
        lines = after;
    }
    false
}
