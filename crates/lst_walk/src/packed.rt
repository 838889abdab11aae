//! The packed words of a frame in hand, loaded one by one.
ghost use Rattle.lst_walk.specs.Packed.{MayLoad};

use lst_layout::FRAME_VALUES;
use lst_pack::Words;
use lst_rule::{Seat, Store, load_frame_from};

// The packed words of a frame that a session has in hand.
#[derive(Drop)]
pub(crate) struct Packed<'a> {
    pub store: &'a Store,
    pub seat: &'a mut Seat,
    pub s: u32,
    pub frame: u32,
    /// The address of the frame's first word.
    pub first: u64,
    ghost ready: { MayLoad store.now seat.now s frame first },
}

impl Words for Packed<'_> {
    ghost use Rattle.lst_walk.specs.Packing.{packed_by, Loads, loads_none, loads_on};

    ghost words = { λ p. packed_by p };

    ghost later = { λ one other. Loads one other };

    fn word(&mut self, place: u32) -> u64 {
        load_frame_from(
            self.store,
            self.seat,
            self.s,
            self.frame,
            self.first,
            FRAME_VALUES + place,
        )
    }

    ghost later_same = { λ one. loads_none one };

    ghost later_on = { λ one other third a b. loads_on one other third a b };
}
