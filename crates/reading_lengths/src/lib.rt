// Reading by lengths alone, apart from the byte-wise one: definitions in specs/, laws in proofs/, no function.

#![tactic(auto)]
