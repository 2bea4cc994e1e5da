// The C interface as a static library: each export calls the function of the same name in crate `snoekeldraf`, under the same contract.
#![tactic(auto)]

pub mod amending;
pub mod compare;
pub mod contents;
pub mod counting;
pub mod editions;
pub mod file;
pub mod record;
pub mod reporting;
pub mod reseal;
pub mod search;
pub mod sessions;
pub mod writer;
