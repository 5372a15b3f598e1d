// What each call of the sender's table decides, and the calls themselves, for any way of keeping the records (document 01, "The table" and "What can come
// back"). A decision is by value: from the record that answers for an SSRC, the table's size and the room for a reply come a refusal, or the record to store and
// the reply to write. What remove decides is of no side and stands in the crate `sides`.
#![tactic(auto)]

pub mod calls;
pub mod datagram;
pub mod kept;
pub mod places;
pub mod replies;
pub mod room;

// The three local calls that may reply.
// Stays: as a closure an event would have to bring along, required of each caller, what it gives, how it is answered and that it asks for room; and
// `Chain.reply_chain` is said of these three.
#[derive(Clone, Copy, PartialEq, Eq, Debug)]
pub enum Call {
    LocalPause,
    Time(u32),
    Report,
}
