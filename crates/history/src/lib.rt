// What a power cut may have changed, proved from the events and answers of a run. There is no code here: see proofs/.
#![tactic(auto)]
