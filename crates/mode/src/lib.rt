// No code: the definition of COMET over any lawful cipher, and what follows from it.
#![tactic(auto)]
