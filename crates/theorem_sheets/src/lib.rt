// What sheets leave, through the entry points: definitions in specs/, theorems in proofs/, no function.

#![tactic(auto)]
