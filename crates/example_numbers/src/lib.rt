// Each number that is listed for an event is the answer to one of its kind: examples, no code.

#![tactic(auto)]
