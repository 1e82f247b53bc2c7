// Theorems alone: a rule's values in a list, with which a constant table of the code is compared, all entries at once.
#![tactic(auto)]
