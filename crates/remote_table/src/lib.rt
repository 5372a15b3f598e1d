// The receiver's table over rows of numbers that the host lends (document 02, "One. We pause other people's streams too"). It shares nothing with the sender's
// table: one SSRC may be in both.
#![tactic(auto)]

pub mod calls;
mod datagram;
