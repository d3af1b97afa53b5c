// No code: sound machines stay sound, proved in proofs/.
#![tactic(auto)]
