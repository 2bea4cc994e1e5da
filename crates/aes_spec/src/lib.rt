// FIPS 197: definitions in `specs/` and theorems in `proofs/`. No code.
#![tactic(auto)]
