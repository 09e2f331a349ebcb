// When each answer of the calls that are no events is given: the table check, the fresh state, framing and the C walk. Laws, no code.

#![tactic(auto)]
