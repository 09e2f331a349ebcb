// When a silent peer is let go, when not, and why its alive timer ran at all, over runs of the machine: laws, no code.

#![tactic(auto)]
