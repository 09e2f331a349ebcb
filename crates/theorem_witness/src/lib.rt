// Machines that meet what the theorems ask, and the theorems applied to them: laws, no code.

#![tactic(auto)]
