// Original staircase frames (document 02, U12). No code: the definitions that every contract cites are in specs/, the theorems on them in proofs/.
#![tactic(auto)]
