// No code: the theory that a line read byte by byte asks for what the language says it means (proofs/LineBytes).
#![tactic(auto)]
