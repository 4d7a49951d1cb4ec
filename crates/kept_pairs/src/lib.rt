// Request M-113, at most as many kept pairs as tasks, as one statement: definitions and proofs only.
#![tactic(auto)]
