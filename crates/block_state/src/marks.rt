// The marks of document 01: the bits that are XORed into byte 15 of Z before a cipher call. They stay bits, not an enum: a block may have
// two of them, and the contracts of `block_key` and `block_state::turn` are of every byte.

// The first block of associated data.
pub const MARK_FIRST_DATA: u8 = 0x08;

// A last block of associated data that is short.
pub const MARK_SHORT_DATA: u8 = 0x10;

// The first block of the message.
pub const MARK_FIRST_TEXT: u8 = 0x20;

// A last block of the message that is short.
pub const MARK_SHORT_TEXT: u8 = 0x40;

// The tag's call.
pub const MARK_TAG: u8 = 0x80;
