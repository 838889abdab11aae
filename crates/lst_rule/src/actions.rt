//! The steps that a seat makes.

use lst_core_state::Event;
use lst_pages::PageEvent;

/// One atomic step of a seat: of the protocol's core, or on pins, pages and frames.
#[derive(Clone, Copy)]
pub enum Action {
    Core(Event),
    Page(PageEvent),
}
