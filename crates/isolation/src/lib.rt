// Each channel behaves as it would alone: theorems alone, over the definitions that the board's contracts are equations with.
#![tactic(auto)]
