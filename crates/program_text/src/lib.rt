// What the programs share: the calls of the test programs, the parts of an input, and the text that they write.
#![tactic(auto)]

pub mod calls;
pub mod fold;
pub mod print;
pub mod read;
