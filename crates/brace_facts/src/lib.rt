// The causes of BRACE's refusals, the draft's own procedure, and the facts from which the demands follow. No code: theorems on
// the crates of BRACE.
#![tactic(auto)]
