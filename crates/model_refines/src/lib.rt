// The world of runs and the entry points: each entry point leaves what the world's step says. No code: the definitions stand in
// specs/, the equations in proofs/.

#![tactic(auto)]
