// LACE's rules of form, the causes of its refusals, and the facts from which the demands follow. No code: theorems on `lace`.
#![tactic(auto)]
