// How many registers are as short as the shortest, and how many sequences have each length. No code: specs/ has the definitions, proofs/
// the theorems.
#![tactic(auto)]
