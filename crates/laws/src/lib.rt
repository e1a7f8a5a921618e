// No code: the small laws that the proofs of the other crates cite stand in proofs.
#![tactic(auto)]
