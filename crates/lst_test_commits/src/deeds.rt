//! Drawn commits of one write each, as plain numbers.

use arrayvec::ArrayVec;
use lst_model::{Act, Commit, Patch, Row, Write, Writes};
use std::alloc::Global;
use std::test::Fail;

/// A record of one write to a table of one column has so many bytes.
pub(crate) const RECORD: usize = 40;

pub(crate) const DEEDS: usize = 3;

/// Draws numbers from a seed.
#[derive(Drop)]
pub(crate) struct Drawer {
    pub seed: u64,
}

impl Drawer {
    /// A number below this one; 0 below 0.
    pub(crate) fn pick(&mut self, below: u8) -> u8 {
        self.seed = self
            .seed
            .wrapping_mul(6364136223846793005)
            .wrapping_add(1442695040888963407);
        if below == 0 {
            return 0;
        }
        ((self.seed >> 33) % below as u64) as u8
    }
}

/// A commit of one write to a table of one column, as plain numbers.
#[derive(Clone, Copy)]
pub(crate) struct Deed {
    session: u8,
    number: u8,
    begin: u8,
    key: u8,
    kind: u8,
    cell: Option<u8>,
}

impl Deed {
    fn write(self) -> Write {
        let cell = self.cell.map(|number| number as u64);
        let act = match self.kind {
            1 => {
                let mut row = Row::of_numbers(ArrayVec::new());
                row.push(cell);
                Act::Put(row)
            }
            2 => {
                let mut patch = Patch::of_numbers(ArrayVec::new());
                patch.push(Some(cell));
                Act::Set(patch)
            }
            _ => Act::Del,
        };
        Write {
            key: self.key as u64,
            act,
        }
    }

    pub(crate) fn commit(self, alloc: Global) -> Result<Commit, Fail> {
        let mut writes = Writes::new(alloc);
        writes.push(self.write())?;
        Ok(Commit {
            session: self.session as u32,
            number: self.number as u32,
            begin: self.begin as u64,
            writes,
        })
    }

    /// The bytes of its record.
    pub(crate) fn record(self) -> [u8; RECORD] {
        let mut bytes = [0; RECORD];
        bytes[0] = 1;
        bytes[4] = self.session;
        bytes[8] = self.number;
        bytes[16] = self.begin;
        bytes[20] = 1;
        bytes[28] = self.key;
        bytes[29] = self.kind;
        if self.kind != 3 {
            bytes[30] = 1;
            bytes[31] = self.cell.is_none() as u8;
            bytes[39] = self.cell.unwrap_or(0);
        }
        bytes
    }
}

/// Three deeds on two keys, each of which fits what those before it made.
pub(crate) fn drawn_deeds(drawer: &mut Drawer) -> [Deed; DEEDS] {
    let mut present = [false; 2];
    let mut deeds = [Deed {
        session: 0,
        number: 0,
        begin: 0,
        key: 0,
        kind: 1,
        cell: None,
    }; DEEDS];
    for (time, deed) in deeds.iter_mut().enumerate() {
        let key = drawer.pick(2);
        let mut kind = 1;
        if let Some(here) = present.get_mut(key as usize) {
            if *here {
                kind = 2 + drawer.pick(2) % 2;
            }
            *here = kind != 3;
        }
        *deed = Deed {
            session: drawer.pick(4),
            number: drawer.pick(255),
            begin: (time % 4) as u8,
            key,
            kind,
            cell: if drawer.pick(4) == 0 {
                None
            } else {
                Some(drawer.pick(255))
            },
        };
    }
    deeds
}

/// Whether these commits are those deeds, their numbers aside.
pub(crate) fn are_same(commits: &[Commit], deeds: &[Deed]) -> bool {
    commits.len() == deeds.len()
        && commits.iter().zip(deeds.iter()).all(|(commit, deed)| {
            commit.session == deed.session as u32
                && commit.begin == deed.begin as u64
                && commit.writes.items() == [deed.write()].as_slice()
        })
}
