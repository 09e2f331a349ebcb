// Record, then replay: what a recorder writes of calls and their answers is read back as those, and replays with no difference. Laws, no code.

#![tactic(auto)]
