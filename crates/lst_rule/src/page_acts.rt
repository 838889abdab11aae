//! One atomic step of a seat on pages: a store, or a load.
ghost use Rattle.std.specs.Prelude.{◌≡◌, ◌<◌, true};
ghost use Rattle.lst_layout.specs.Addresses as addresses;
ghost use Rattle.lst_layout.specs.Areas.{words_of};
ghost use Rattle.lst_pages.specs.Known.{stepper, PageEnabled};
ghost use Rattle.lst_pages.specs.Numbers as numbers;
ghost use Rattle.lst_pages.specs.Step.{IsWithin, place_of};
ghost use Rattle.lst_rule.specs.Actions.{stock_numbers, numbers_after_page};
ghost use Rattle.lst_rule.specs.Rule.{knows, hosts};
ghost use Rattle.lst_rule.specs.Learned.{PageCanStand, PageMade, PageMet};
ghost use Rattle.lst_rule.specs.Operations.{IsPageStore, IsPageLoad};
ghost use Rattle.lst_rule.specs.Seats.{told};
ghost use Rattle.lst_rule.specs.Stores.{IsSeatOf};

use crate::actions::Action;
use crate::seat::Seat;
use crate::store::Store;
use crate::{load_word, store_word};
use lst_core_state::Numbers;
use lst_pages::{MergerNumbers, PageEvent, merger_after, pin_after, target, written};

/// Changes the numbers as a step on pages does.
#[inline(always)]
fn advance_pages(now: &mut Numbers, event: PageEvent)
    requires { numbers.IsWritable (stock_numbers now.old) event }
    ensures { now.new ≡ numbers_after_page event now.old }
{
    let stock = MergerNumbers {
        epoch: now.epoch,
        built: now.built,
    };
    let stock = merger_after(stock, event);
    now.pin = pin_after(now.pin, event);
    now.epoch = stock.epoch;
    now.built = stock.built;
}

/// A step on pages that stores a word.
#[inline(always)]
pub(crate) fn store_page(store: &Store, seat: &mut Seat, s: u32, event: PageEvent)
    requires seat { IsSeatOf store.now seat.old }
    requires actor { stepper seat.old.view.limits event ≡ s }
    requires host { hosts seat.old.view (stepper seat.old.view.limits event) ≡ true }
    requires kind { IsPageStore event }
    requires within { IsWithin seat.old.view.limits event }
    requires enabled { PageEnabled seat.old.view.limits (knows seat.old.view (stepper seat.old.view.limits event)).pages event }
    requires stands { PageCanStand seat.old.view event }
    ensures seat { IsSeatOf store.now seat.new }
    ensures made { PageMade seat.old.view seat.new.view event (place_of event) (numbers.written_of (stock_numbers (told seat.old.view (stepper seat.old.view.limits event))) event 0) }
{
    let now = seat.stock(s, event);
    let word = target(&store.layout, event) as usize;
    let new = written(now, event, 0);
    store_word(
        &store.table.shared,
        &mut seat.place,
        Action::Page(event),
        word,
        new,
    );
    advance_pages(&mut seat.numbers[s as usize], event);
}

/// A step on pages that loads a word, which has this address, and answers it. No number changes.
#[inline(always)]
pub(crate) fn load_page(store: &Store, seat: &mut Seat, event: PageEvent, address: u64) -> u64
    requires seat { IsSeatOf store.now seat.old }
    requires host { hosts seat.old.view (stepper seat.old.view.limits event) ≡ true }
    requires kind { IsPageLoad event }
    requires within { IsWithin seat.old.view.limits event }
    requires enabled { PageEnabled seat.old.view.limits (knows seat.old.view (stepper seat.old.view.limits event)).pages event }
    requires address { address ≡ addresses.address store.now.layout.limits (place_of event) }
    requires below { address < words_of store.now.layout.limits }
    ensures seat { IsSeatOf store.now seat.new }
    ensures met { PageMet seat.old.view seat.new.view event (place_of event) result result }
{
    load_word(
        &store.table.shared,
        &mut seat.place,
        Action::Page(event),
        address as usize,
    )
}
