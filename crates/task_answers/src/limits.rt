//! How long a file may be, and how much a search may look at.

/// The greatest length of a file with a task or with a load over several sectors, in bytes.
pub const LONGEST_TASK: usize = 1_048_576;

/// The greatest length of a file with a certificate of cuts or of trees, in bytes.
pub const LONGEST_CERTIFICATE: usize = 805_306_368;

/// The greatest length of a file with a certificate with prices, in bytes: 32,000 cuts of 4,300 bytes each, and the
/// lines beside them.
pub const LONGEST_PRICED: usize = 138_000_000;

/// The budget of a search if the arguments name none.
pub const USUAL_BUDGET: u32 = 20_000;

/// The greatest budget of a search.
pub const GREATEST_BUDGET: u32 = 50_000;

/// The greatest budget of a search with prices, and its budget if the arguments name none.
pub const GREATEST_PRICED_BUDGET: u32 = 500;

/// The greatest length of an answer of a desk that has its certificate, in bytes.
pub const LONGEST_ANSWER: usize = 4_194_304;
