// What calls of both sides come back with, and packets.
use cases::{Case, number};
use rtcp::Entry;
use std::fmt::Display;
use std::io;

pub(crate) fn print(rt: &HostRuntime, what: &str, case: u8, value: u64) -> io::Result<()> {
    println!(rt; "{what} case {case} value {value}")
}

// An answer: its case, and what Done carries. A refusal has no place here: `print_datagram` of either side prints the refusals that have one.
pub(crate) fn print_answer<T: Display + Copy, E: Case>(
    rt: &HostRuntime,
    what: &str,
    answer: Result<T, E>,
) -> io::Result<()> {
    let case = number(answer);
    match answer {
        Ok(value) => println!(rt; "{what} case {case} value {value}"),
        Err(_) => print(rt, what, case, 0),
    }
}

// An answer whose Done carries nothing more.
pub(crate) fn print_done<E: Case>(
    rt: &HostRuntime,
    what: &str,
    answer: Result<(), E>,
) -> io::Result<()> {
    print_answer(rt, what, answer.map(|()| 0u8))
}

// A record's state with its PauseID.
pub(crate) fn print_state(rt: &HostRuntime, state: &str, id: u16) -> io::Result<()> {
    println!(rt; "{state} PauseID {id}")
}

// Entry k of a datagram: who sends it, its type and its PauseID; or End, where there is none.
pub(crate) fn print_entry(rt: &HostRuntime, datagram: &[u8], k: usize) -> io::Result<()> {
    match walk::entry(datagram, k) {
        Some(
            Entry {
                sender,
                kind,
                id,
                ..
            },
        ) => println!(rt; "entry from {sender} type {kind} PauseID {id}"),
        None => println!(rt; "end"),
    }
}
