//! How views are split and joined at the table, and a load that changes none.
ghost use Rattle.std.specs.Prelude.{ℕ};
ghost use Rattle.lst_layout.specs.declared.limits.Limits.{Limits};
ghost use Rattle.lst_rule.specs.Joins.{without, alone, noted, united, spent, confirmed, note_heard};

use crate::view::View;
use atomic_table::{Join, Play, Split};
use lst_layout::Limits;
use std::marker::{Brand, PhantomData};

/// The session that a seat is split for. The merger has the number of the sessions.
pub trait Chooses {
    ghost session: { ℕ };
}

impl Chooses for Brand {
    ghost session = { 0 };
}

/// A session is split off.
pub struct Parts<E> {
    marker: PhantomData<E>,
}

impl<E: Chooses> Split<View> for Parts<E> {
    ghost left = { without E.session };

    ghost right = { alone E.session };
}

/// What a session has seen is copied.
pub struct Notes<E> {
    marker: PhantomData<E>,
}

impl<E: Chooses> Split<View> for Notes<E> {
    ghost left = { λ v. v };

    ghost right = { noted E.session };
}

/// The limits of the store, which a view that is spent has.
pub trait Binds {
    ghost limits: { Limits };
}

impl Binds for Brand {
    ghost limits = { record { columns = 0; ranges = 0; tails = 0; sessions = 0; txns = 0; spare = 0; indexed = 0 } };
}

/// Two seats are made one.
pub struct Unites<E> {
    marker: PhantomData<E>,
}

impl<E: Binds> Join<View> for Unites<E> {
    ghost both = { united };

    ghost spent = { spent E.limits };
}

/// A load that changes no view.
pub struct Confirms;

impl Play<(), View> for Confirms {
    ghost then = { confirmed };
}

/// A load at which all that a seat hosts hear its note.
pub struct Hears;

impl Play<(), View> for Hears {
    ghost then = { note_heard };
}
