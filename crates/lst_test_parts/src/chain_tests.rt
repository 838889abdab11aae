//! What a begin time sees of chains of two types of version.

use crate::same::same;
use lst_chain::{
    Seen, Version, acts_in_order, column_at, column_laws, first_visible, nullable_columns,
};

// A version with one column.
#[derive(Drop)]
struct Entry {
    time: u64,
    held: Option<Option<u64>>,
}

impl Version for Entry {
    ghost use Rattle.std.specs.Prelude.{nat_eq, nat_le, Some, None, if◌then◌else◌};
    ghost use Rattle.lst_chain.specs.declared.Seen.TheVariants.{Visible, Hidden};

    ghost status = { λ entry begin. if nat_le entry.time begin then Visible else Hidden };

    ghost explicit = { λ entry column. if nat_eq column 0 then entry.held else None };

    fn status(&self, begin: u64) -> Seen {
        if self.time <= begin {
            Seen::Visible
        } else {
            Seen::Hidden
        }
    }

    fn explicit(&self, column: u32) -> Option<Option<u64>> {
        if column == 0 { self.held } else { None }
    }
}

// A version with one column that may be null.
#[derive(Drop)]
struct Nullable {
    time: u64,
    held: Option<Option<Option<u64>>>,
}

impl Version for Nullable {
    ghost use Rattle.std.specs.Prelude.{nat_eq, nat_le, None, option_map, if◌then◌else◌};
    ghost use Rattle.lst_chain.specs.Chain.{number_of, null_flag};
    ghost use Rattle.lst_chain.specs.declared.Seen.TheVariants.{Visible, Hidden};

    ghost status = { λ entry begin. if nat_le entry.time begin then Visible else Hidden };

    ghost explicit = { λ entry column. if nat_eq column 0 then option_map (option_map number_of) entry.held else (if nat_eq column 8 then option_map (option_map null_flag) entry.held else None) };

    fn status(&self, begin: u64) -> Seen {
        if self.time <= begin {
            Seen::Visible
        } else {
            Seen::Hidden
        }
    }

    fn explicit(&self, column: u32) -> Option<Option<u64>> {
        match (column, self.held) {
            (0, Some(Some(cell))) => Some(Some(cell.unwrap_or(0))),
            (8, Some(Some(cell))) => Some(Some(cell.is_none() as u64)),
            (0 | 8, Some(None)) => Some(None),
            _ => None,
        }
    }
}

/// A cell for each form that a version has: a number, no column, null, and a deleted record.
fn nullable_chain() -> [Nullable; 5] {
    [
        (9, Some(Some(Some(90)))),
        (7, None),
        (5, Some(Some(None))),
        (3, Some(None)),
        (1, Some(Some(Some(10)))),
    ]
    .map(|(time, held)| Nullable { time, held })
}

#[test]
fn reads_a_cell_by_its_number_and_its_null_flag(rt: HostRuntime) {
    let chain = nullable_chain();
    for (begin, wanted) in [
        (9, (Some(90), Some(0))),
        (8, (Some(0), Some(1))),
        (4, (None, None)),
        (2, (Some(10), Some(0))),
    ] {
        let found = (column_at(&chain, begin, 0), column_at(&chain, begin, 8));
        same(&rt, found, wanted, begin);
    }
    nullable_columns::<Nullable>();
}

/// An entry for each form that a version has: a number, no column, and a deleted record.
fn chain() -> [Entry; 5] {
    [
        (9, Some(Some(90))),
        (7, None),
        (5, Some(Some(50))),
        (3, Some(None)),
        (1, Some(Some(10))),
    ]
    .map(|(time, held)| Entry { time, held })
}

#[test]
fn finds_the_newest_version_that_a_begin_sees(rt: HostRuntime) {
    let chain = chain();
    for (begin, want) in [(9, Some(0)), (8, Some(1)), (4, Some(3)), (0, None)] {
        same(&rt, first_visible(&chain, begin), want, begin);
    }
}

#[test]
fn reads_a_column_through_versions_that_do_not_hold_it(rt: HostRuntime) {
    let chain = chain();
    for (begin, want) in [
        (9, Some(90)),
        (8, Some(50)),
        (4, None),
        (2, Some(10)),
        (0, None),
    ] {
        same(&rt, column_at(&chain, begin, 0), want, begin);
    }
    same(&rt, column_at(&chain, 9, 1), None, "column 1");
}

#[test]
fn laws_hold_of_a_type_of_version() {
    acts_in_order::<Entry, u64>();
    column_laws::<Entry>();
}
