// No code: what the writer of shift files writes for a draft and for a file, and the theorems about it.
#![tactic(auto)]
