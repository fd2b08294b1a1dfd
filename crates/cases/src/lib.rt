// The starred rows of 01's "Cases to be proved together", with no code: specs/ holds the table, proofs/ the one theorem over it.
#![tactic(auto)]
