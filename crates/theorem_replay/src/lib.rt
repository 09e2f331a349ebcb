// What a replay is: laws of recordings, steps and replays over the machine that the entry points make, no code.

#![tactic(auto)]
