// Two answers that a contract allows for one input are equal, for each shape that a contract has: laws, no code.

#![tactic(auto)]
