//! The words of a page in hand.
ghost use Rattle.std.specs.Prelude.{◌≡◌, length, slice_index};
ghost use Rattle.lst_pack.specs.Forms.{Packs};
ghost use Rattle.lst_pages.specs.Frames.{tps_in, HasEntries};
ghost use Rattle.lst_merge.specs.Pages.{entry_of, AreNumbers, AreAbsentZero};

use lst_layout::{FRAME_TIMES, FRAME_VALUES, FRAME_WORDS};
use lst_pack::pack;

const WORDS: usize = FRAME_WORDS as usize;

const VALUES: usize = FRAME_VALUES as usize;

const TIMES: usize = FRAME_TIMES as usize;

/// Makes a page in hand the words of a page with this TPS.
pub fn write_page(tps: u32, values: &[u64; 256], words: &mut [u64; WORDS])
    requires { AreNumbers (slice_index words.old) values.now }
    ensures tps { tps_in (slice_index words.new) ≡ tps }
    ensures entries { HasEntries (slice_index words.new) (entry_of (slice_index words.old) values.now) }
    ensures absent { AreAbsentZero (slice_index words.new) }
{
    words[0] = tps as u64;
    pack_part(values, &mut words[VALUES..TIMES]);
}

/// Packs the values into the words of a frame in which they are packed.
fn pack_part(values: &[u64; 256], part: &mut [u64])
    requires { length part.old ≡ 257 }
    ensures long { length part.new ≡ 257 }
    ensures packs { Packs part.new values.now }
{
    let Some(packed) = part.as_mut_array() else {
        unreachable!()
    };
    pack(values, packed);
}
