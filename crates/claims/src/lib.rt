// The claims: theorems only, in proofs/, over the definitions that the contracts cite.
#![tactic(auto)]
