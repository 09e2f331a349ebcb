// Which member of a group a datagram or an accept meets, in the rules' words, and when each answer is given: laws, no code.

#![tactic(auto)]
