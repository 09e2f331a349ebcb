// Runs of events: which count as the same, and what is then the same. No code: the relation stands in specs/, the theorems
// in proofs/.

#![tactic(auto)]
