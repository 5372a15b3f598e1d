// Streams are apart (demand 3). This crate has no code: specs/ says what a run of calls is and what the one-stream rules give, proofs/ that they agree.

#![tactic(auto)]
