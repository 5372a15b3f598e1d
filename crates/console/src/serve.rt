// A line served: its digits read, its frame done, its answer printed from the output's start. None: it is Line.
use crate::packet::step;
use crate::record::{lend, placed};
use crate::say::Output;
use crate::{Console, record, remote_record};
use lines::hex::read;
use lines::{Line, MOST_READ};

impl Console {
    // Stays: the first byte as docs/CONSOLE.md has it, here and in the calls; an enum of the 20 frames would be matched once more to no use.
    fn serve(&mut self, bytes: &[u8], out: &mut Output) -> Option<()> {
        match *bytes.first()? {
            0x11 => out.say_bytes(&record::bytes_of(placed(&self.table, bytes)?)),
            0x12 => {
                lend(&mut self.table, bytes, record::row_in(bytes)?)?;
                out.say_done();
            }
            0x27 => out.say_bytes(&remote_record::bytes_of(placed(&self.remotes, bytes)?)),
            0x28 => {
                lend(&mut self.remotes, bytes, remote_record::row_in(bytes)?)?;
                out.say_done();
            }
            0x31 => step(bytes, out)?,
            0xe0 => {
                self.set_room(bytes)?;
                out.say_done();
            }
            0xe1 => {
                self.set_size(bytes)?;
                out.say_done();
            }
            0xe2 => {
                self.fill(bytes)?;
                out.say_done();
            }
            0xe3 => self.show_bytes(bytes, out)?,
            _ => self.call(bytes, out)?,
        }
        Some(())
    }

    // The whole line that the first `held` bytes are.
    pub(crate) fn serve_line(&mut self, line: &Line, held: usize, out: &mut Output) -> Option<()> {
        let mut bytes = [0u8; MOST_READ];
        let n = read(line, held, &mut bytes)?;
        self.serve(&bytes[..n], out)
    }
}
