// Rows of numbers and the sets that they stand for: the definitions are in specs/, what holds of them in proofs/.
#![tactic(auto)]
