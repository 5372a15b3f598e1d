// What each call of the receiver's table decides (document 02, "One. We pause other people's streams too"), by value: from the record that answers for an SSRC,
// the table's size and the room for a message come a refusal, or the record to store and the message to write. A call finds the record, decides, and stores what
// was decided.
#![tactic(auto)]

pub mod calls;
pub mod datagram;
pub mod messages;
pub mod places;
