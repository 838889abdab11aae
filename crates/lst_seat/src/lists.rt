//! Lists of seats, and the refusals of gathering.
ghost use Rattle.std.specs.Prelude.{◌≡◌};

use lst_rule::Seat;
use std::marker::Model;

/// Seats of one store.
#[derive(Drop)]
pub struct SeatList {
    pub(crate) items: Vec<Seat>,
}

impl Model for SeatList {
    ghost use Rattle.std.specs.Prelude.{List};
    ghost use Rattle.lst_rule.specs.Seats.{Sitting};

    ghost Value = { List Sitting };

    ghost view = { λ s. s.items.items };
}

impl SeatList {
    /// The seats of a vector.
    pub fn from_vec(items: Vec<Seat>) -> SeatList
        ensures { result ≡ items.items }
    {
        SeatList { items }
    }

    /// The vector of the seats.
    pub fn into_vec(self) -> Vec<Seat>
        ensures { result.items ≡ self }
    {
        self.items
    }
}

/// Why seats were not gathered.
#[derive(Drop)]
pub enum SeatCause {
    /// None of the seats hosts this session, the least one.
    Gap { missing: u32 },
    OutOfMemory,
}

/// Seats that were not gathered, as they were.
#[derive(Drop)]
pub struct SeatRefusal {
    pub seats: SeatList,
    pub merger: Seat,
    pub cause: SeatCause,
}
