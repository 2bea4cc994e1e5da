// The limits of document 01 on shift files and rings. `cipher::LIMIT` is the one on associated data and messages of a record.
#![tactic(auto)]

// The bytes of a file's header.
pub const HEADER_LEN: usize = 8;

// The most bytes of a shift file (20), and the most rows (22).
pub const MAX_FILE: usize = 1048576;

pub const MAX_ROWS: usize = 512;

// The fewest and the most bytes of an entry's associated data (27): it starts with job number and unit.
pub const MIN_AD: u16 = 5;

pub const MAX_AD: u16 = 1024;

// The last key of a ring (26), and the bytes of a ring (2): sixteen keys of `cipher::KEY_LEN` bytes each.
pub const MAX_KEY: u8 = 15;

pub const RING_LEN: usize = 256;
