// Routing switches: when a route or a destination is on, bit by bit: definitions in specs/, laws in proofs/, no function.

#![tactic(auto)]
