// Theorems alone: what the counts of a run and its line say of its answers, of its records, and of each channel by itself. The statements stand in specs/, the proofs in proofs/.
#![tactic(auto)]
