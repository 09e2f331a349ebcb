// The timer and the due mark of a send buffer, in any run, by the PDUs that wait in it: laws, no code.

#![tactic(auto)]
