// Both sides of each edge of selection, transmit and take waiting, by computation over the definitions; and a setpoint for two valves, of
// which both get it or none does: no code.

#![tactic(auto)]
