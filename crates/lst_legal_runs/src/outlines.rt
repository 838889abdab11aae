//! What a session has done by a place of a run, without the writes of its open transaction.
ghost use Rattle.std.specs.Prelude.{◌≡◌, ◌<◌, ◌^◌, ◌+◌, ◌-◌, ◌||◌, Some, false, option_map, is_some};
ghost use Rattle.lst_replies.specs.Runs.{write_of};
ghost use Rattle.lst_replies.specs.States.{is_as_of};
ghost use Rattle.lst_legal_runs.specs.Outlines.{outline_after};

use lst_model::{Call, Reply, Time};

/// An open transaction: the number that it has in its session (1 and up), the time at which it began, whether it is
/// read-only, and whether it has writes.
#[derive(Clone, Copy)]
pub struct OpenOutline {
    pub number: u64,
    pub begin: Time,
    pub read_only: bool,
    pub has_writes: bool,
}

/// How many transactions a session has begun, and its open one.
#[derive(Clone, Copy)]
pub struct StateOutline {
    pub begun: u64,
    pub current: Option<OpenOutline>,
}

impl StateOutline {
    /// Behind a call with this reply.
    pub(crate) fn after(self, call: &Call, reply: &Reply) -> StateOutline
        requires { self.begun < 2 ^ 64 - 1 }
        ensures { result ≡ outline_after call.now reply.now self }
    {
        match reply {
            Reply::Begun { time } => self.with_begun(*time, is_as_of(call)),
            Reply::Done => self.with_write(is_write(call)),
            Reply::Committed { .. } | Reply::Ended { .. } | Reply::Aborted => StateOutline {
                begun: self.begun,
                current: None,
            },
            _ => self,
        }
    }

    fn with_begun(self, time: Time, read_only: bool) -> StateOutline
        requires { self.begun < 2 ^ 64 - 1 }
        ensures { result ≡ record { begun = self.begun + 1; current = Some (record { number = self.begun + 1; begin = time; read_only = read_only; has_writes = false }) } }
    {
        let number = self.begun + 1;
        StateOutline {
            begun: number,
            current: Some(OpenOutline {
                number,
                begin: time,
                read_only,
                has_writes: false,
            }),
        }
    }

    fn with_write(self, writes: bool) -> StateOutline
        ensures { result ≡ record { begun = self.begun; current = option_map (λ current. record { number = current.number; begin = current.begin; read_only = current.read_only; has_writes = current.has_writes || writes }) self.current } }
    {
        match self.current {
            None => self,
            Some(current) => StateOutline {
                begun: self.begun,
                current: Some(OpenOutline {
                    number: current.number,
                    begin: current.begin,
                    read_only: current.read_only,
                    has_writes: current.has_writes || writes,
                }),
            },
        }
    }
}

fn is_as_of(call: &Call) -> bool
    ensures { result ≡ is_as_of call.now }
{
    matches!(call, Call::AsOf { .. })
}

pub(crate) fn is_write(call: &Call) -> bool
    ensures { result ≡ is_some (write_of call.now) }
{
    match call {
        Call::Insert { .. } | Call::Update { .. } | Call::Delete { .. } => true,
        _ => false,
    }
}
