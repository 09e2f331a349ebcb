// The transitions of a connection as one table: what each event makes of mode and wishes; and what ends a transfer, over the entry points.
// No code: the table stands in specs/, the proof that it is the events' effect, and the laws of transfers, in proofs/.

#![tactic(auto)]
