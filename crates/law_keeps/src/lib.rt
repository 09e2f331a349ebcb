// Every entry leaves a sound state sound: what passes the gate passes it again after each event, one file for each kind of event. No code.

#![tactic(auto)]
