// What timer and due mark say of the PDUs that wait on a connection: laws, no code.

#![tactic(auto)]
