// Demand 3 whole: specs/Isolation.antt has the claim, proofs/Isolation.antt its proof.
#![tactic(auto)]
