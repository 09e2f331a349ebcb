// The report of a run, by what its events have told for each connection: runs that count as the same have the same report, and counting from the bytes of
// the answers gives it. Definitions in specs/, theorems in proofs/, no function.

#![tactic(auto)]
