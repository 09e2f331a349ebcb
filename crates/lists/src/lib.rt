// Laws over lists of any element: no code.

#![tactic(auto)]
