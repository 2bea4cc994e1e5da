// The layout of the shift file: its header, its rows, and the body that each row names.
#![tactic(auto)]

pub mod body;
pub mod row;
