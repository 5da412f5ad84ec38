// The C face as definitions: what every exported function is to answer (specs/Face), and the laws that their proofs go by.
#![tactic(auto)]
