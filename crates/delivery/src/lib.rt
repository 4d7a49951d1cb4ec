// Ticks that are given to a part: no function. Definitions are in specs/, laws in proofs/.
#![tactic(auto)]
