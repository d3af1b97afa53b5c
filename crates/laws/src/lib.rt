// No code: laws that several crates cite stand in proofs/, the notation that definitions share in specs/.
#![tactic(auto)]
