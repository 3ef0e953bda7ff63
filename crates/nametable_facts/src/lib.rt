// The causes of a table's refusals, and what follows for a table that is cut or reads whole. No
// code: theorems on `nametable`.
#![tactic(auto)]
