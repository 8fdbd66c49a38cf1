//! Certificates of trees: evidence that a path is the best placement of a task, or that no path is admissible, by prices
//! of what the hold has little of and by trees of reasons over them. Their values, and their text.
//!
//! ```text
//! CERTIFICATE 3
//! best 11 12 41
//! clique 11 12P
//! low 11 40 ; 3 2 ; 0 7
//! nearer
//! narrow 0
//! split 2 41 42
//! leaf 0
//! residue
//! least 1 11
//! leaf 0
//! END
//! ```
//!
//! The second line names the positions of the path that is claimed to be the best, or it is `none` for the claim that
//! nothing fits. A clique lists positions that exclude each other, from nose to tail. A line of prices begins with the end
//! from which hold indices are counted, and then has the prices of positions, of limits and of cliques; a limit has its
//! place among the combined limits, the cumulative ones and the two of a lateral limit. Then comes the tree that nothing is
//! nearer, `any` in place of `nearer` where nothing is claimed, and for each smaller neighbour of the path a tree of its own.
//! Numbers count from 0. Any lines before `CERTIFICATE 3` are skipped, so that a whole answer to a task is the text of a
//! certificate.
#![tactic(auto)]

mod laws;
mod line_readers;
mod line_writers;
mod parts;
mod price_readers;
mod reader;
mod writer;

pub use laws::tree_reading_laws;
pub use parts::{End, Operation, Price, PriceList, Sibling, TreeCertificate};
pub use reader::read_trees;
pub use writer::{push_trees, write_trees};
