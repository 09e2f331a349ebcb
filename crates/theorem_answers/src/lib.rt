// When each answer number is given: the checks of each event in their order. Laws of the machine that the entry points make, no code.

#![tactic(auto)]
