// Nothing to run: proofs/ has the theorems on requests that no function needs.
#![tactic(auto)]
