// Each event changes some sound state: one table of states, events and what a field becomes. No code: the table stands in
// specs/, its computation in proofs/.

#![tactic(auto)]
