//! Each step on the numbers that a running program has: the word that it is on, what it writes, and the numbers after it.
ghost use Rattle.std.specs.Prelude.{◌≡◌, ◌+◌, ◌<◌, ◌^◌};
ghost use Rattle.lst_layout.specs.Addresses as addresses;
ghost use Rattle.lst_layout.specs.Areas.{words_of};
ghost use Rattle.lst_pages.specs.Numbers as spec;
ghost use Rattle.lst_pages.specs.Step as step;
ghost use Rattle.lst_pages.specs.Step.{IsWithin, place_of};

use crate::events::PageEvent;
use lst_bits::pack_pin;
use lst_layout::Layout;

/// What a running merger needs of what it knows.
#[derive(Clone, Copy, PartialEq, Eq, Debug)]
pub struct MergerNumbers {
    /// The epoch word.
    pub epoch: u64,
    /// The frame that is being built.
    pub built: Option<u32>,
}

/// The address of the word that a step is on.
pub fn target(layout: &Layout, event: PageEvent) -> u64
    requires { IsWithin layout.now.limits event }
    ensures address { result ≡ addresses.address layout.now.limits (place_of event) }
    ensures below { result < words_of layout.now.limits }
{
    match event {
        PageEvent::Pin { session, epoch: _ }
        | PageEvent::Unpin { session }
        | PageEvent::LookPin { session } => layout.pins(session),
        PageEvent::LookPage {
            session: _,
            range,
            column,
        }
        | PageEvent::Swap { range, column } => layout.directory(range, column),
        PageEvent::StoreFrame {
            frame,
            place,
            value: _,
        } => layout.frames(frame, place),
        PageEvent::Raise => layout.epoch(),
    }
}

/// What a step makes of the word that it finds.
pub fn written(now: MergerNumbers, event: PageEvent, found: u64) -> u64
    requires { spec.IsWritable now event }
    ensures { result ≡ spec.written_of now event found }
{
    match event {
        PageEvent::Pin { session: _, epoch } => pack_pin(Some(epoch)),
        PageEvent::Unpin { session: _ } => pack_pin(None),
        PageEvent::LookPage {
            session: _,
            range: _,
            column: _,
        }
        | PageEvent::LookPin { session: _ } => found,
        PageEvent::StoreFrame {
            frame: _,
            place: _,
            value,
        } => value,
        PageEvent::Swap {
            range: _,
            column: _,
        } => now.built.unwrap_or(0) as u64,
        PageEvent::Raise => now.epoch + 1,
    }
}

/// The merger's numbers after a step.
pub fn merger_after(now: MergerNumbers, event: PageEvent) -> MergerNumbers
    requires { spec.IsWritable now event }
    ensures { result ≡ spec.numbers_after now event }
{
    match event {
        PageEvent::StoreFrame {
            frame,
            place: _,
            value: _,
        } => MergerNumbers {
            built: Some(frame),
            ..now
        },
        PageEvent::Swap {
            range: _,
            column: _,
        } => MergerNumbers { built: None, ..now },
        PageEvent::Raise => MergerNumbers {
            epoch: now.epoch + 1,
            ..now
        },
        PageEvent::Pin {
            session: _,
            epoch: _,
        }
        | PageEvent::Unpin { session: _ }
        | PageEvent::LookPage {
            session: _,
            range: _,
            column: _,
        }
        | PageEvent::LookPin { session: _ } => now,
    }
}

/// A session's pin word after a step of its own.
pub fn pin_after(pin: u64, event: PageEvent) -> u64
    requires { spec.IsPinnable event }
    ensures { result ≡ spec.pin_after_of pin event }
{
    match event {
        PageEvent::Pin { session: _, epoch } => epoch + 1,
        PageEvent::Unpin { session: _ } => 0,
        PageEvent::LookPage {
            session: _,
            range: _,
            column: _,
        }
        | PageEvent::LookPin { session: _ }
        | PageEvent::StoreFrame {
            frame: _,
            place: _,
            value: _,
        }
        | PageEvent::Swap {
            range: _,
            column: _,
        }
        | PageEvent::Raise => pin,
    }
}

/// Whether a pin word does not hold a frame that was retired at this epoch.
pub fn lets_go(pin: u64, epoch: u64) -> bool
    ensures { result ≡ step.lets_go pin epoch }
{
    pin == 0 || epoch < pin
}
