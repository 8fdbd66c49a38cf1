// The limits of a request.

/// The most bytes of a head.
pub const MOST_HEAD: usize = 8192;

/// The most fields of a head.
pub const MOST_FIELDS: usize = 64;

/// The most bytes of a body.
pub const MOST_BODY: usize = 16384;

/// The most bytes of a request.
pub const MOST_REQUEST: usize = MOST_HEAD + MOST_BODY;
