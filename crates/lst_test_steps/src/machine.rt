//! The machine of one thread: what each operation of two sessions that write on one record comes to.
use crate::operations::{Answer, Operation};
use lst_model::Time;
use lst_txn::{BeginFault, TurnFault};
use lst_write::JudgeFault;

/// What a session has in hand.
#[derive(Clone, Copy, PartialEq, Eq)]
enum Hand {
    Nothing,
    Latch,
    Judged,
    Tail,
}

/// How a session's transaction stands.
#[derive(Clone, Copy, PartialEq, Eq)]
enum State {
    Unbegun,
    Open,
    Closed,
    Committed { time: Time },
}

/// A session.
#[derive(Clone, Copy)]
struct Session {
    state: State,
    begin: Time,
    hand: Hand,
    has_written: bool,
}

/// Two sessions and one record.
#[derive(Drop)]
pub(crate) struct Machine {
    clock: Time,
    first: Session,
    second: Session,
    /// Who wrote the newest version, and the one below it.
    newest: Option<u32>,
    oldest: Option<u32>,
}

const NEW: Session = Session {
    state: State::Unbegun,
    begin: 0,
    hand: Hand::Nothing,
    has_written: false,
};

impl Machine {
    pub(crate) fn new() -> Machine {
        Machine {
            clock: 0,
            first: NEW,
            second: NEW,
            newest: None,
            oldest: None,
        }
    }

    fn session(&self, s: u32) -> Session {
        if s == 0 { self.first } else { self.second }
    }

    fn put(&mut self, s: u32, session: Session) {
        if s == 0 {
            self.first = session;
        } else {
            self.second = session;
        }
    }

    /// How many versions there are, which is the number of the newest.
    fn count(&self) -> u32 {
        match (self.newest, self.oldest) {
            (None, _) => 0,
            (Some(_), None) => 1,
            (Some(_), Some(_)) => 2,
        }
    }

    /// What the version of this writer says to the session, or None where it is passed.
    fn verdict(&self, s: u32, writer: Option<u32>) -> Option<Answer> {
        let Some(writer) = writer else {
            return None;
        };
        if writer == s {
            return Some(Answer::Judged);
        }
        match self.session(writer).state {
            State::Closed => None,
            State::Committed { time } => {
                if time <= self.session(s).begin {
                    return Some(Answer::Judged);
                }
                let fault = JudgeFault::Newer { time };
                Some(Answer::NotJudged { fault })
            }
            _ => {
                let fault = JudgeFault::Unfinished {
                    session: writer,
                    number: 1,
                };
                Some(Answer::NotJudged { fault })
            }
        }
    }

    fn begin(&mut self, s: u32) -> Answer {
        let mut session = self.session(s);
        if session.hand != Hand::Nothing {
            return Answer::Skipped;
        }
        if session.state == State::Open {
            let fault = BeginFault::Active;
            return Answer::NotBegun { fault };
        }
        session.state = State::Open;
        session.begin = self.clock;
        self.put(s, session);
        Answer::Began { time: self.clock }
    }

    fn latch(&mut self, s: u32) -> Answer {
        let mut session = self.session(s);
        if session.state != State::Open || session.hand != Hand::Nothing {
            return Answer::Skipped;
        }
        let other = if s == 0 { 1 } else { 0 };
        if self.session(other).hand != Hand::Nothing {
            return Answer::Latched;
        }
        session.hand = Hand::Latch;
        self.put(s, session);
        Answer::Head { head: self.count() }
    }

    fn judge(&mut self, s: u32) -> Answer {
        let mut session = self.session(s);
        if session.hand != Hand::Latch {
            return Answer::Skipped;
        }
        let mut answer = Answer::Judged;
        if let Some(verdict) = self.verdict(s, self.oldest) {
            answer = verdict;
        }
        if let Some(verdict) = self.verdict(s, self.newest) {
            answer = verdict;
        }
        if answer == Answer::Judged {
            session.hand = Hand::Judged;
            self.put(s, session);
        }
        answer
    }

    fn append(&mut self, s: u32) -> Answer {
        let mut session = self.session(s);
        if session.hand != Hand::Judged || session.begin > 0 || session.has_written {
            return Answer::Skipped;
        }
        session.hand = Hand::Tail;
        self.put(s, session);
        Answer::Tail {
            tail: self.count().wrapping_add(1),
        }
    }

    fn install(&mut self, s: u32) -> Answer {
        let mut session = self.session(s);
        if session.hand != Hand::Tail {
            return Answer::Skipped;
        }
        session.hand = Hand::Nothing;
        session.has_written = true;
        self.put(s, session);
        self.oldest = self.newest;
        self.newest = Some(s);
        Answer::Installed
    }

    fn release(&mut self, s: u32) -> Answer {
        let mut session = self.session(s);
        if session.hand != Hand::Latch && session.hand != Hand::Judged {
            return Answer::Skipped;
        }
        session.hand = Hand::Nothing;
        self.put(s, session);
        Answer::Released
    }

    fn commit(&mut self, s: u32) -> Answer {
        let mut session = self.session(s);
        if session.hand != Hand::Nothing {
            return Answer::Skipped;
        }
        if session.state != State::Open {
            let fault = TurnFault::Idle;
            return Answer::NotCommitted { fault };
        }
        if !session.has_written {
            return Answer::Skipped;
        }
        let time = self.clock.wrapping_add(1);
        self.clock = time;
        session.state = State::Committed { time };
        self.put(s, session);
        Answer::Committed { time }
    }

    fn close(&mut self, s: u32) -> Answer {
        let mut session = self.session(s);
        if session.hand != Hand::Nothing {
            return Answer::Skipped;
        }
        if session.state != State::Open {
            return Answer::Idle;
        }
        session.state = State::Closed;
        self.put(s, session);
        Answer::Closed
    }

    /// What an operation comes to.
    pub(crate) fn step(&mut self, s: u32, operation: Operation) -> Answer {
        match operation {
            Operation::Begin => self.begin(s),
            Operation::Latch { key: _ } => self.latch(s),
            Operation::Judge => self.judge(s),
            Operation::Append => self.append(s),
            Operation::Install => self.install(s),
            Operation::Release => self.release(s),
            Operation::Commit => self.commit(s),
            Operation::Close => self.close(s),
        }
    }
}
