// The first and the second demand, each as one theorem: laws, no code.

#![tactic(auto)]
