// Histories of the five calls: theorems only, in proofs/.
#![tactic(auto)]
