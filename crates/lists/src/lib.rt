// Definitions and laws on lists and numbers that the kit lacks. No code: specs/ has the definitions, proofs/ the laws.
#![tactic(auto)]
