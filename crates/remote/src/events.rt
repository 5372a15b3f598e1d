// The events of one remote stream, a function for each row of its state table.
ghost use Rattle.std.specs.Prelude.{◌≡◌};
ghost use Rattle.remote.specs.Events.{ask_to_pause_row, ask_to_resume_row, media_row, paused_row, received, refused_row, repeated_pause, repeated_resume, report_row};

use crate::{Ask, Busy, Outcome, Remote, State};
use counters::{Message, PauseId};

// "four reports repeat it"
const REPEATS: u8 = 4;

impl Remote {
    pub fn ask_to_pause(self) -> Result<Outcome, Busy>
        ensures { result ≡ ask_to_pause_row self.state self }
    {
        match self.state {
            State::Receiving => Ok(self.to(State::AskedToPause(REPEATS)).asking(Ask::Pause)),
            State::Paused => Ok(self.silent()),
            State::AskedToPause(_) | State::AskedToResume(_) => Err(Busy),
        }
    }

    pub fn ask_to_resume(self) -> Result<Outcome, Busy>
        ensures { result ≡ ask_to_resume_row self.state self }
    {
        match self.state {
            State::Receiving => Ok(self.silent()),
            State::Paused => Ok(self.to(State::AskedToResume(REPEATS)).asking(Ask::Resume)),
            State::AskedToPause(_) | State::AskedToResume(_) => Err(Busy),
        }
    }

    // Stays: this and the next are two cells of the state table (`Events.repeated_pause`, `repeated_resume`), which differ in both states and in the ask.
    fn repeated_pause(self, left: u8) -> Outcome
        ensures { result ≡ repeated_pause left self }
    {
        if left == 0 {
            self.to(State::Receiving).silent()
        } else {
            self.to(State::AskedToPause(left - 1)).asking(Ask::Pause)
        }
    }

    fn repeated_resume(self, left: u8) -> Outcome
        ensures { result ≡ repeated_resume left self }
    {
        if left == 0 {
            self.to(State::Paused).silent()
        } else {
            self.to(State::AskedToResume(left - 1)).asking(Ask::Resume)
        }
    }

    // A regular RTCP report goes out.
    pub fn report(self) -> Outcome
        ensures { result ≡ report_row self.state self }
    {
        match self.state {
            State::Receiving | State::Paused => self.silent(),
            State::AskedToPause(left) => self.repeated_pause(left),
            State::AskedToResume(left) => self.repeated_resume(left),
        }
    }

    // A packet of the stream's media has come.
    pub fn media_seen(self) -> Outcome
        ensures { result ≡ media_row self.state self }
    {
        match self.state {
            State::Receiving | State::AskedToPause(_) => self.silent(),
            State::Paused | State::AskedToResume(_) => {
                self.moved(State::Receiving, self.id.advance()).silent()
            }
        }
    }

    pub fn received_paused(self, id: PauseId) -> Outcome
        ensures { result ≡ paused_row id self.state self }
    {
        match self.state {
            State::Receiving | State::AskedToPause(_) | State::Paused => {
                self.moved(State::Paused, id).silent()
            }
            State::AskedToResume(_) => Remote { id, ..self }.silent(),
        }
    }

    pub fn received_refused(self, id: PauseId) -> Outcome
        ensures { result ≡ refused_row id self.state self }
    {
        match self.state {
            State::Receiving | State::Paused => self.silent(),
            State::AskedToPause(_) => self.moved(State::Receiving, id).silent(),
            State::AskedToResume(_) => self.moved(State::Paused, id).silent(),
        }
    }

    // An entry of a datagram, by its type.
    pub fn received(self, message: Message, id: PauseId) -> Outcome
        ensures { result ≡ received message id self }
    {
        match message {
            Message::Paused => self.received_paused(id),
            Message::Refused => self.received_refused(id),
            Message::Pause | Message::Resume | Message::Reserved => self.silent(),
        }
    }
}
