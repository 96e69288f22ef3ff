// No code: the theorems on nested reading and its text that no function needs. proofs/Nesting.antt: what is opened, in what order rows stand, how
// deep, how many; proofs/Packets.antt: what was written reads back; proofs/Cards.antt: document 01's example.
#![tactic(auto)]
