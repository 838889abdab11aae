//! The state word of a transaction.
ghost use Rattle.std.specs.Prelude.{◌≡◌};
ghost use Rattle.lst_bits.specs.States.{state_word, state_of, IsState, StatesArePacked};

/// How far a transaction is.
#[derive(Clone, Copy, PartialEq, Eq, Debug)]
pub enum State {
    /// Open, or not begun.
    Active,
    /// Ended without a commit.
    Closed,
    /// Committed at this time, which is at least 1.
    Committed { time: u64 },
}

/// The state word: 0 active, 1 closed, else one above the time of the commit.
#[inline(always)]
pub fn pack_state(state: State) -> u64
    requires { IsState state }
    ensures { result ≡ state_word state }
{
    match state {
        State::Active => 0,
        State::Closed => 1,
        State::Committed { time } => time + 1,
    }
}

/// What a state word says.
#[inline(always)]
pub fn unpack_state(word: u64) -> State
    ensures state { result ≡ state_of word }
    ensures range { IsState result }
    ensures word { state_word result ≡ word }
{
    match word {
        0 => State::Active,
        1 => State::Closed,
        _ => State::Committed { time: word - 1 },
    }
}

/// Packing and unpacking undo one another.
pub fn states_are_packed()
    ensures { StatesArePacked }
{}
