// The block step of COMET: one block of associated data or text, absorbed, and its output.
#![tactic(auto)]

pub mod one_block;
mod pad;
mod shuffle;
