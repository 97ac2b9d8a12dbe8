// No code: specs/ says what the rows of a table mean and what the written steps are, proofs/ holds all laws about them.

#![tactic(auto)]
