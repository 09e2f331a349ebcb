// What a transmit adds to the bytes waiting on a connection, and what a take hands out: laws of the entry points, no code.

#![tactic(auto)]
