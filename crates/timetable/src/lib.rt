// Worked figures of what is foreseen: it has specs and proofs alone.
#![tactic(auto)]
