// The first of some numbers that is not good, and lists of which the first elements are changed: laws over crate lists, no code.

#![tactic(auto)]
