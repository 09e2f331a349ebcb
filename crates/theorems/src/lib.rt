// The theorem page: what holds of any run of the entry points. No code: the theorems stand in proofs/, beside the definitions that their
// contracts cite.

#![tactic(auto)]
