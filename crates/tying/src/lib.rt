// No code: on the parts of a sound claim a seat's code does what the rules do to the claim, proved in proofs/.
#![tactic(auto)]
