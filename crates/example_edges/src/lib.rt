// The edges of transfers and of silent peers (sections 19 and 20 of the rules) as one table, and wrong programs refuted over the definitions.
// No code: the table stands in specs/, its computation in proofs/, and there what the definitions give for the starred edges.

#![tactic(auto)]
