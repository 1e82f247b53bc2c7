// Theorems alone: document 01's starred examples, over the definitions that the contracts use. specs/Starred.antt states them.
#![tactic(auto)]
