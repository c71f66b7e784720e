// The table of subscriptions: specs/ has the rules of its calls and demand 3 for them, proofs/ that the rules meet it.
#![tactic(auto)]
