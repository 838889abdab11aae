//! The rule of the table, and what each operation on a word tells.
ghost use Rattle.lst_core_state.specs.declared.events.Event.TheVariants.{Look};
ghost use Rattle.lst_rule.specs.declared.actions.Action.{Action};
ghost use Rattle.lst_rule.specs.declared.actions.Action.TheVariants.{Core};
ghost use Rattle.lst_rule.specs.Rule.{Ruled, crew, loaded, stored, exchanged, added, bits_set};

use crate::view::View;
use atomic_table::{Play, TableRule};
use lst_layout::Limits;
use std::marker::{Brand, PhantomData};

/// The words and the views of all seats show a sound state of the core and of pages.
pub struct StoreRule;

impl TableRule<(), View, Limits> for StoreRule {
    ghost holds = { Ruled };

    ghost first = { crew };
}

/// What a step is.
pub trait Means {
    ghost action: { Action };
}

impl Means for Brand {
    ghost action = { Core (Look 0 0) };
}

/// A load.
pub struct Loads<E> {
    marker: PhantomData<E>,
}

impl<E: Means> Play<(), View> for Loads<E> {
    ghost then = { loaded E.action };
}

/// A store.
pub struct Stores<E> {
    marker: PhantomData<E>,
}

impl<E: Means> Play<(), View> for Stores<E> {
    ghost then = { stored E.action };
}

/// An exchange of one number for another.
pub struct Exchanges<E> {
    marker: PhantomData<E>,
}

impl<E: Means> Play<(), View> for Exchanges<E> {
    ghost then = { exchanged E.action };
}

/// An addition.
pub struct Adds<E> {
    marker: PhantomData<E>,
}

impl<E: Means> Play<(), View> for Adds<E> {
    ghost then = { added E.action };
}

/// Bits that are set.
pub struct SetsBits<E> {
    marker: PhantomData<E>,
}

impl<E: Means> Play<(), View> for SetsBits<E> {
    ghost then = { bits_set E.action };
}
