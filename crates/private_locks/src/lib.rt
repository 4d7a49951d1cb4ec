// Request M-100, private locks, as one statement: definitions and proofs only.
#![tactic(auto)]
