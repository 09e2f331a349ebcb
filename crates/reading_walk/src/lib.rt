// The walk over a datagram: definitions in specs/, laws in proofs/, no function.

#![tactic(auto)]
