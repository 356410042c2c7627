// Theorems over the definitions of the other crates; there is no code. They are stated in specs/UnitsKeepIds.antt, specs/Needed.antt,
// specs/Table.antt and specs/Settled.antt.

#![tactic(auto)]
