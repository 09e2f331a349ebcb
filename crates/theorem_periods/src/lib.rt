// When an online period of a TCP connection ends, both ways: laws, no code.

#![tactic(auto)]
