// Examples A to L of paper 01, and those of requests, as theorems.
#![tactic(auto)]
