// The edges of streams and datagrams (section 12 of the rules), computed, and wrong readings refuted: definitions in specs/, laws in proofs/, no
// function.

#![tactic(auto)]
