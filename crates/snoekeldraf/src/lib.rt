// The C interface: every function that programs in other languages call. A slice passes as a pointer and a length. Parameters and
// results are as C has them: outputs stand one by one, and statuses are numbers.
#![tactic(auto)]

pub mod amending;
pub mod compare;
pub mod contents;
pub mod counting;
pub mod editions;
pub mod file;
pub mod record;
pub mod reporting;
pub mod reseal;
pub mod search;
pub mod sessions;
pub mod writer;
