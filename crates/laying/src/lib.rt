// No code: how a claim lies in its seat's parts of the lent buffers, and what the code's writes do to it, proved in proofs/.
#![tactic(auto)]
