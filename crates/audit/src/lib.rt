// The promises carried to the code: what holds of every run of the public functions. There is no code here: see specs/ and
// proofs/.
#![tactic(auto)]
