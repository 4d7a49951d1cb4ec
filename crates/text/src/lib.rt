// Bytes, lines, fields and numbers in base ten.
#![tactic(auto)]
