// Laws for proofs that walk lent slices and references to structs by hand: proofs/ has them; no code.
#![tactic(auto)]
