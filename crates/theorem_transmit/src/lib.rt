// When a transmit gets each of its answers, and which destination a refusal names: laws, no code.

#![tactic(auto)]
