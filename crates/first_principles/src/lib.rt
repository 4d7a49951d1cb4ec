// What the library answers, from first principles: no function. Definitions are in specs/, laws in proofs/.
#![tactic(auto)]
