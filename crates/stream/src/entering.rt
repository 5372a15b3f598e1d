// What entering each state does to a record, and the replies: each said once.
ghost use Rattle.std.specs.Prelude.{◌≡◌};
ghost use Rattle.stream.specs.Record.{
  moved,
  to_playing,
  to_pausing,
  to_paused,
  to_local_paused,
  with_repeats,
  with_next,
  silent,
  replying,
  PAUSED,
  REFUSED,
};

use crate::{Outcome, ReplyEntry, State, Stream};
use counters::{Notice, PauseId};

// "PAUSED is repeated in the next two regular reports."
const REPEATS: u8 = 2;

impl Stream {
    fn moved(self, state: State, current: PauseId, repeats: u8) -> Stream
        ensures { result ≡ moved self state current repeats }
    {
        Stream {
            state,
            current,
            repeats,
            ..self
        }
    }

    pub(crate) fn to_playing(self) -> Stream
        ensures { result ≡ to_playing self }
    {
        self.moved(State::Playing, self.current.advance(), 0)
    }

    pub(crate) fn to_pausing(self, time: u32) -> Stream
        ensures { result ≡ to_pausing time self }
    {
        let deadline = counters::clock::deadline(time, self.holdoff);
        Stream {
            state: State::Pausing(deadline),
            ..self
        }
    }

    pub(crate) fn to_paused(self) -> Stream
        ensures { result ≡ to_paused self }
    {
        self.moved(State::Paused, self.current, REPEATS)
    }

    pub(crate) fn to_local_paused(self) -> Stream
        ensures { result ≡ to_local_paused self }
    {
        self.moved(State::LocalPaused, self.current, REPEATS)
    }

    pub(crate) fn with_repeats(self, repeats: u8) -> Stream
        ensures { result ≡ with_repeats repeats self }
    {
        Stream { repeats, ..self }
    }

    pub(crate) fn with_next(self) -> Stream
        ensures { result ≡ with_next self }
    {
        Stream {
            next: self.next.advance(),
            ..self
        }
    }

    pub(crate) fn silent(self) -> Outcome
        ensures { result ≡ silent self }
    {
        Outcome {
            stream: self,
            reply: None,
        }
    }

    fn replying(self, notice: Notice) -> Outcome
        ensures { result ≡ replying notice self }
    {
        let entry = ReplyEntry {
            target: self.ssrc,
            notice,
            id: self.current,
        };
        Outcome {
            stream: self,
            reply: Some(entry),
        }
    }

    pub(crate) fn says_paused(self) -> Outcome
        ensures { result ≡ PAUSED self }
    {
        self.replying(Notice::Paused)
    }

    pub(crate) fn says_refused(self) -> Outcome
        ensures { result ≡ REFUSED self }
    {
        self.replying(Notice::Refused)
    }
}
