//! The rows of a key: those that were committed, and the one that an open transaction has made.
ghost use Rattle.std.specs.Prelude.{◌≡◌, ◌≤◌};
ghost use Rattle.std.specs.List.Sorted.{IsNonDecreasingBy};
ghost use Rattle.lst_model.specs.Histories.{row_after};
ghost use Rattle.lst_plain.specs.Rows.{row_at};

use lst_model::{Act, Row, Time, overlay};

/// A row with the time of the commit that made it, or None where that commit deleted the row.
#[derive(Drop)]
pub(crate) struct Version {
    pub time: Time,
    pub row: Option<Row>,
}

/// The row that an open transaction has made, or None where it deleted the row, with the transaction's session and
/// number.
#[derive(Drop)]
pub(crate) struct Pending {
    pub session: u32,
    pub number: u32,
    pub row: Option<Row>,
}

/// A copy of a row, where there is one.
pub(crate) fn copied(row: &Option<Row>) -> Option<Row>
    ensures { result ≡ row.now }
{
    match row {
        Some(row) => Some(row.copied()),
        None => None,
    }
}

/// The row as of a time, of versions by rising time.
pub(crate) fn row_as_of(versions: &[Version], time: Time) -> Option<Row>
    requires { IsNonDecreasingBy (λ version. version.time) versions.now }
    ensures { result ≡ row_at versions.now time }
{
    let count = versions.partition_point(|version| version.time <= time);
    if count == 0 {
        return None;
    }
    copied(&versions[count - 1].row)
}

/// The row that an act makes of a row, or of none.
pub(crate) fn row_changed(row: Option<Row>, act: &Act) -> Option<Row>
    ensures { result ≡ row_after row act.now }
{
    match act {
        Act::Put(new) => Some(new.copied()),
        Act::Set(patch) => match row {
            Some(old) => Some(overlay(&old, patch)),
            None => None,
        },
        Act::Del => None,
    }
}
