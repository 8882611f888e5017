// The theory of linear recurrences modulo m. No code: specs/ has the definitions, proofs/ the theorems.
#![tactic(auto)]
