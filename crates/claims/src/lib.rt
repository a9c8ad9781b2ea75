// The three demands, as theorems about the public calls. There is nothing to run here: specs/ has a world of a pool with the bytes that are lent to it and the
// calls on it, proofs/Claims.antt the theorems.
#![tactic(auto)]
