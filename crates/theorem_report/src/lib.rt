// The theorems of the foreman's report: joins, sets of runs, bounds of the figures, and runs that count as the same. No function.

#![tactic(auto)]
