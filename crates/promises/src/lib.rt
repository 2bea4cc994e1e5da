// No code: the owner's demands as statements (specs/), each with its proof by citation (proofs/). Start reading here.
#![tactic(auto)]
