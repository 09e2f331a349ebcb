// What a call writes of lent memory: laws of the machine that the entry points make, no code.

#![tactic(auto)]
