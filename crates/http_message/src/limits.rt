/// How many bytes a head, or a trailer with the empty line behind it, has at most.
pub const MAX_HEAD: usize = 16_384;

/// How many fields a head or a trailer has at most.
pub const MAX_FIELDS: usize = 64;

/// How many bytes a body has at most.
pub const MAX_BODY: usize = 1_048_576;

/// More fields than fit into `MAX_HEAD` bytes: each has three bytes or more.
pub const ROOM: usize = 5_461;
