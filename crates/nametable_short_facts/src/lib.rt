// The causes of a short table's refusals, and what holds of tables that are cut, read whole or moved
// to the other form. No code: theorems on `nametable_short`.
#![tactic(auto)]
