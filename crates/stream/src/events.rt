// The events of one stream, a function for each row of document 01's state table.
ghost use Rattle.std.specs.Prelude.{◌≡◌};
ghost use Rattle.stream.specs.Said.{number_said};
ghost use Rattle.stream.specs.Events.{
  pause_row,
  resume_row,
  time_row,
  local_pause_row,
  local_resume_row,
  repeated,
  report_row,
  send_row,
  by_judgement,
  received,
};

use crate::State::{LocalPaused, Paused, Pausing, Playing};
use crate::{Held, Outcome, Sent, Stream};
use counters::clock::due;
use counters::{Judgement, Message, PauseId};

impl Stream {
    // A received entry, at its datagram's time.
    #[tactic(auto, unfolding(crate::specs::Events::received))]
    pub fn received(self, message: Message, id: PauseId, time: u32) -> Outcome
        ensures { result ≡ received message id time self }
    {
        self.by_judgement(message, id.judge(self.current), time)
    }

    fn by_judgement(self, message: Message, judgement: Judgement, time: u32) -> Outcome
        ensures { result ≡ by_judgement time message judgement self }
    {
        match (message, judgement) {
            (Message::Pause, Judgement::Current) => self.pause_current(time),
            (Message::Resume, Judgement::Current) => self.resume_current(),
            (Message::Pause | Message::Resume, Judgement::Future) => self.says_refused(),
            _ => self.silent(),
        }
    }

    fn pause_current(self, time: u32) -> Outcome
        ensures { result ≡ pause_row time self.state self }
    {
        match self.state {
            Playing if self.holdoff == 0 => self.to_paused().says_paused(),
            Playing => self.to_pausing(time).silent(),
            Pausing(_) => self.silent(),
            Paused | LocalPaused => self.says_paused(),
        }
    }

    fn resume_current(self) -> Outcome
        ensures { result ≡ resume_row self.state self }
    {
        match self.state {
            Playing => self.silent(),
            Pausing(_) | Paused => self.to_playing().silent(),
            LocalPaused => self.says_refused(),
        }
    }

    // The clock's event: only this takes Pausing to Paused.
    pub fn time(self, time: u32) -> Outcome
        ensures { result ≡ time_row time self.state self }
    {
        match self.state {
            Pausing(deadline) if due(time, deadline) => self.to_paused().says_paused(),
            Playing | Pausing(_) | Paused | LocalPaused => self.silent(),
        }
    }

    pub fn local_pause(self) -> Outcome
        ensures { result ≡ local_pause_row self.state self }
    {
        match self.state {
            Playing | Pausing(_) | Paused => self.to_local_paused().says_paused(),
            LocalPaused => self.silent(),
        }
    }

    pub fn local_resume(self) -> Outcome
        ensures { result ≡ local_resume_row self.state self }
    {
        match self.state {
            Playing | Pausing(_) | Paused => self.silent(),
            LocalPaused => self.to_playing().silent(),
        }
    }

    fn repeated(self) -> Outcome
        ensures { result ≡ repeated self }
    {
        if self.repeats == 0 {
            self.silent()
        } else {
            self.with_repeats(self.repeats - 1).says_paused()
        }
    }

    // A regular RTCP report goes out.
    pub fn report(self) -> Outcome
        ensures { result ≡ report_row self.state self }
    {
        match self.state {
            Playing | Pausing(_) => self.silent(),
            Paused | LocalPaused => self.repeated(),
        }
    }

    // The number of the next packet, or Held.
    pub fn send(self) -> Sent
        ensures { (result.stream ≡ (send_row self.state self).0) × (number_said result.number ≡ (send_row self.state self).1) }
    {
        match self.state {
            Playing | Pausing(_) => Sent {
                stream: self.with_next(),
                number: Ok(self.next),
            },
            Paused | LocalPaused => Sent {
                stream: self,
                number: Err(Held),
            },
        }
    }
}
