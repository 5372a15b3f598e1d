// How a host calls the library: a camera of its own that is put on hold, and what strangers can do about it; another's camera that is asked to pause, followed
// to Paused and back. It prints each call's case by its number in document 01, "What can come back" (Busy, 18, is document 02's), and the value that goes with
// it; no answer is dropped.
#![tactic(auto)]

mod own_camera;
mod print;
mod remote_camera;

use std::io;

fn main(rt: HostRuntime) -> io::Result<()> {
    own_camera::run(&rt)?;
    remote_camera::run(&rt)
}
