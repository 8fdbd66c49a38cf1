//! Laws of trees: what a checker accepts by a walk over operations, said of trees as values, and what it narrows
//! pass by pass, said of all choices at once.
//!
//! The definitions of `tree_checker` follow the check: a list of operations is read over a list of choices that are
//! left to refute, and a choice is narrowed by one pass after another. Here a tree is a value, of which it is said from
//! its root down what it refutes; and what a choice is narrowed to is the greatest one within it of its kind. The laws
//! are that these say the same.
#![tactic(auto)]

mod laws;

pub use laws::{greatest_choice_laws, refutation_laws, task_choice_laws};
