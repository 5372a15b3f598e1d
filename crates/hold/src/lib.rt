// Only you start a stream that you put on hold. This crate has no code: specs/ says what "on hold" and "only you" mean, proofs/ that it is so.

#![tactic(auto)]
