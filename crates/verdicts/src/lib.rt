// No code: specs/ says what the circuit call answers and what a verdict is, proofs/ holds the laws about verdicts.

#![tactic(auto)]
