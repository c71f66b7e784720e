// The worked examples of document 01 that are proved: specs/Examples.antt.
#![tactic(auto)]
