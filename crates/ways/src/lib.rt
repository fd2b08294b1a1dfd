// The pure theory of best strips, with no code: specs/ holds what strip, value, greatest, first, next and none left mean,
// proofs/ the theorems about them.
#![tactic(auto)]
