// The abstract world that runs are about: records with their held bytes, events as data, one step. No code: definitions
// stand in specs/, their laws in proofs/.

#![tactic(auto)]
