//! The rows that a keeper keeps.

use base_words::ListOf;

/// Bytes, which contracts see as the list that they are.
pub type Bytes = ListOf<u8>;

/// A row: the bytes that are kept under a key.
#[derive(Clone, Debug, Drop)]
pub struct KeptRow {
    pub key: Bytes,
    pub bytes: Bytes,
}
