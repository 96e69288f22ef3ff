// Nothing to run: proofs/Claims.antt lists what is claimed of every public function.
#![tactic(auto)]
