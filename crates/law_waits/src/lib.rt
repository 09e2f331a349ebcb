// What waits on a connection, event after event: laws, no code.

#![tactic(auto)]
