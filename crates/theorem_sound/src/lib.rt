// When state and table are sound, and when 12 and 3 are given, in the words of the rules: no code.

#![tactic(auto)]
