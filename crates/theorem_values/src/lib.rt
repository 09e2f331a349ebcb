// The number and the values of each answer enum, and the enum back from them: laws, no code.

#![tactic(auto)]
