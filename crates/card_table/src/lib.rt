// Nothing to run: specs/ has document 01's marked cards as one table, and proofs/ the theorem that each is true. The program cards runs them.
#![tactic(auto)]
