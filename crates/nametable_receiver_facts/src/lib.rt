// The causes of a receiver's refusals, and that it answers as reading the table at once. No code:
// theorems on `nametable_receiver`.
#![tactic(auto)]
