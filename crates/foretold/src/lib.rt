// What the times left foretell comes true: theory alone, there is no code.
#![tactic(auto)]
