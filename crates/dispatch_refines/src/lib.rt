// The dispatcher and the machine that demands are about: each call of the dispatcher leaves what the events that it spells make of the
// machine. No code: the definitions stand in specs/, the equations in proofs/.

#![tactic(auto)]
