// Streams are apart on the receiver's table (document 02, "One", and demand 3). There is no code here: specs/ says what a run of its calls is, proofs/ that each stream follows the request's rules alone.

#![tactic(auto)]
