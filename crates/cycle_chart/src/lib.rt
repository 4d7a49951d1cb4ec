// Request M-109, a chart of one cycle, as one statement: definitions and proofs only.
#![tactic(auto)]
