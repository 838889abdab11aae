//! Drawn appends, with a crash at each call, and each subset of the bytes under write, against plain bytes and counts.

use crate::checks::is_so;
use crate::deeds::{DEEDS, Deed, Drawer, RECORD, are_same, drawn_deeds};
use lst_disk::{Disk, MemDisk};
use lst_log::{AppendFault, is_record, open};
use std::alloc::Global;
use std::process::Abort;
use std::test::Fail;

/// Three records, and some bytes behind them.
const SIZE: usize = 126;

type Image = [u8; SIZE];

/// An image with the records of these deeds, and this byte everywhere behind the closed gate that follows them.
fn image_of(deeds: &[Deed], behind: u8) -> Image {
    let mut image = [behind; SIZE];
    let mut at = 0;
    for deed in deeds {
        put(&mut image, at, &deed.record());
        at = at.wrapping_add(RECORD);
    }
    put(&mut image, at, &[0]);
    image
}

/// Puts a piece over the bytes from a place on, as far as there are any.
fn put(image: &mut Image, at: usize, piece: &[u8]) {
    for (place, byte) in piece.iter().enumerate() {
        if let Some(cell) = image.get_mut(at.wrapping_add(place)) {
            *cell = *byte;
        }
    }
}

/// Whether a disk with this image is opened with these deeds.
fn stands_for(alloc: Global, image: &Image, deeds: &[Deed]) -> Result<bool, Fail> {
    let mut disk = MemDisk::new(alloc, SIZE as u32, 9, false)?;
    disk.room(SIZE as u64)?;
    if disk.write_at(0, image).is_err() {
        return Ok(false);
    }
    match open(alloc, disk, 1) {
        Ok((_, snapshots)) => Ok(are_same(snapshots.commits(), deeds)),
        Err(_) => Ok(false),
    }
}

/// The places at which two images differ, with the bytes of the second.
fn changes_of(alloc: Global, before: &Image, after: &Image) -> Result<Vec<(usize, u8)>, Fail> {
    let mut changes = Vec::new(alloc);
    for (place, bytes) in before.iter().zip(after.iter()).enumerate() {
        if bytes.0 != bytes.1 {
            changes.push((place, *bytes.1))?;
        }
    }
    Ok(changes)
}

/// An image with those of the changes whose bits are set.
fn changed(before: &Image, changes: &[(usize, u8)], subset: u32) -> Image {
    let mut image = *before;
    let mut bits = subset;
    for (place, byte) in changes {
        if bits % 2 == 1 {
            put(&mut image, *place, &[*byte]);
        }
        bits /= 2;
    }
    image
}

/// Whether each image that has, at each place, the one's byte or the other's stands for these deeds.
fn each_subset_stands_for(
    alloc: Global,
    before: &Image,
    after: &Image,
    deeds: &[Deed],
) -> Result<bool, Fail> {
    let changes = changes_of(alloc, before, after)?;
    if changes.len() > 12 {
        return Err("too many bytes change".into());
    }
    for subset in 0..1u32 << changes.len() {
        if !stands_for(alloc, &changed(before, &changes, subset), deeds)? {
            return Ok(false);
        }
    }
    Ok(true)
}

/// While the record of a deed is written, any of its bytes may be there: the deeds before it are, and it is once its gate is opened.
fn each_is_left_out_until_its_gate(
    rt: &impl Abort,
    alloc: Global,
    deeds: &[Deed; DEEDS],
    seed: u64,
) -> Result<(), Fail> {
    for done in 0..DEEDS {
        let (so_far, with_this) = (&deeds[..done], &deeds[..done + 1]);
        let after = image_of(with_this, 0);
        let mut staged = after;
        put(&mut staged, done * RECORD, &[0]);
        let stands = each_subset_stands_for(alloc, &image_of(so_far, 0), &staged, so_far)?;
        is_so(rt, stands, (seed, done, "staged"));
        is_so(rt, stands_for(alloc, &after, with_this)?, (seed, done));
    }
    Ok(())
}

#[test]
fn each_subset_of_the_bytes_under_write_leaves_the_deeds_so_far(
    rt: HostRuntime,
) -> Result<(), Fail> {
    for seed in 0..4 {
        let deeds = drawn_deeds(&mut Drawer { seed });
        each_is_left_out_until_its_gate(&rt, rt.alloc(), &deeds, seed)?;
    }
    Ok(())
}

#[test]
fn any_byte_at_the_gate_leaves_the_deeds_with_this_one_or_without(
    rt: HostRuntime,
) -> Result<(), Fail> {
    let deeds = drawn_deeds(&mut Drawer { seed: 7 });
    for done in 0..DEEDS {
        let mut image = image_of(&deeds[..done + 1], 1);
        for gate in 0..=255 {
            put(&mut image, done * RECORD, &[gate]);
            let found = if gate == 1 { done + 1 } else { done };
            let stands = stands_for(rt.alloc(), &image, &deeds[..found])?;
            is_so(&rt, stands, (gate, done));
        }
    }
    Ok(())
}

/// An image with the records of these deeds and a closed gate, behind which drawn bytes are those of the record, drawn ones, or 1.
fn with_bytes_behind(drawer: &mut Drawer, deeds: &[Deed], record: &[u8; RECORD]) -> Image {
    let mut image = image_of(deeds, 1);
    let gate = deeds.len().wrapping_mul(RECORD);
    for (place, byte) in record.iter().enumerate().skip(1) {
        let at = gate.wrapping_add(place);
        if drawer.pick(2) == 0 {
            put(&mut image, at, &[*byte]);
        } else if drawer.pick(2) == 0 {
            put(&mut image, at, &[drawer.pick(255)]);
        }
    }
    image
}

#[test]
fn any_bytes_behind_a_closed_gate_leave_the_deeds_so_far(rt: HostRuntime) -> Result<(), Fail> {
    let mut drawer = Drawer { seed: 11 };
    for round in 0..300 {
        let deeds = drawn_deeds(&mut drawer);
        let done = drawer.pick(3) as usize % DEEDS;
        let image = with_bytes_behind(&mut drawer, &deeds[..done], &deeds[done].record());
        is_so(&rt, stands_for(rt.alloc(), &image, &deeds[..done])?, round);
    }
    Ok(())
}

/// What an opening with an append behind it came to.
#[derive(Clone, Copy, Debug, PartialEq, Eq)]
enum Round {
    NotOpened,
    Stopped,
    Done,
    Other,
}

/// Opens a disk that stands for the deeds so far, and appends the next one.
fn make_round(
    alloc: Global,
    disk: MemDisk,
    before: &[Deed],
    deed: Deed,
) -> Result<(MemDisk, Round), Fail> {
    let commit = deed.commit(alloc)?;
    let (mut log, snapshots) = match open(alloc, disk, 1) {
        Ok(opened) => opened,
        Err(refusal) => return Ok((refusal.disk, Round::NotOpened)),
    };
    if !is_record(&commit, log.columns) || !are_same(snapshots.commits(), before) {
        return Ok((log.disk, Round::Other));
    }
    let came_to = match log.append(alloc, &commit) {
        Ok(()) => Round::Done,
        Err(AppendFault::Disk) => Round::Stopped,
        Err(_) => Round::Other,
    };
    Ok((log.disk, came_to))
}

/// What the next round comes to with so many calls left, how many are left behind it, and whether a torn disk has its deed then.
fn plain_round(left: u64) -> (Round, u64, bool) {
    match left {
        0 => (Round::NotOpened, 0, false),
        1..=4 => (Round::Stopped, 0, left == 4),
        _ => (Round::Done, left - 5, true),
    }
}

/// A disk after the rounds that it makes with so many calls, and how many deeds it is owed to have behind a crash. None where a round came to something else than
/// is owed.
fn rounds_made(
    alloc: Global,
    deeds: &[Deed; DEEDS],
    disk: MemDisk,
    stop: u64,
    torn: bool,
) -> Result<Option<(MemDisk, usize)>, Fail> {
    let mut disk = disk;
    let mut left = stop;
    for done in 0..DEEDS {
        let (owed, later, has) = plain_round(left);
        let (after, came_to) = make_round(alloc, disk, &deeds[..done], deeds[done])?;
        disk = after;
        left = later;
        if came_to != owed {
            return Ok(None);
        }
        if owed != Round::Done {
            let found = if has && torn { done + 1 } else { done };
            return Ok(Some((disk, found)));
        }
    }
    Ok(Some((disk, DEEDS)))
}

/// Whether appends to a disk that makes so many calls, and what is found after its crash, are as counted.
fn is_as_counted(
    alloc: Global,
    deeds: &[Deed; DEEDS],
    stop: u64,
    torn: bool,
) -> Result<bool, Fail> {
    let disk = MemDisk::new(alloc, SIZE as u32, stop, torn)?;
    let Some((disk, found)) = rounds_made(alloc, deeds, disk, stop, torn)? else {
        return Ok(false);
    };
    let Some(owed) = deeds.get(..found) else {
        return Ok(false);
    };
    match open(alloc, disk.crash(), 1) {
        Ok((_, snapshots)) => Ok(are_same(snapshots.commits(), owed)),
        Err(_) => Ok(false),
    }
}

#[test]
fn drawn_appends_are_found_again_after_a_crash_at_each_call(rt: HostRuntime) -> Result<(), Fail> {
    for seed in 0..20 {
        let deeds = drawn_deeds(&mut Drawer { seed });
        for stop in 0..17 {
            for torn in [false, true] {
                let counted = is_as_counted(rt.alloc(), &deeds, stop, torn)?;
                is_so(&rt, counted, (seed, stop, torn));
            }
        }
    }
    Ok(())
}
