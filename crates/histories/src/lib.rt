// Theorems alone: what holds of one channel over any list of calls. The statements stand in specs/, the proofs in proofs/.
#![tactic(auto)]
