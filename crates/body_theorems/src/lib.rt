// No code: what a user may rely on of bodies. Theorems stand here and not with the functions, since every must-fail edit checks its whole crate.
#![tactic(auto)]
