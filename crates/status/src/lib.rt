// Statuses by the numbers of documents 01 and 02: of sealer and opener, and of the check of a shift file.
#![tactic(auto)]

pub mod checked;
pub mod verdict;
