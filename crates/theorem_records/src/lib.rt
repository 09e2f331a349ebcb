// Which records an event leaves as they were, whose remote a record has, and what follows a take of waiting bytes: laws, no code.

#![tactic(auto)]
