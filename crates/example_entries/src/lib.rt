// The starred edges through the entry points, from sound states and any memory of the right lengths: examples, no code.

#![tactic(auto)]
