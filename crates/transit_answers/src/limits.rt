//! How long files may be.

/// The greatest length of a file with a container message or with a load message, in bytes.
pub const LONGEST_MESSAGE: usize = 1_048_576;
