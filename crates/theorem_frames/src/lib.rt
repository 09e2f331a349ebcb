// What calls of the framing function write, and what is read back out of it: laws, no code.

#![tactic(auto)]
