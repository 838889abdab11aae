//! A list of lines.
ghost use Rattle.std.specs.Prelude.{◌≡◌, ◌==◌, ◌<◌, ◌≤◌, suc, [], ◌∷◌, ◌++◌, Some, None, length, map, unwrap_or, slice_get, IfOk, OnOk, OnErr};
ghost use Rattle.lst_model.specs.declared.lines.Line.TheVariants as line;
ghost use Rattle.lst_model.specs.declared.lines.Call.TheVariants as call;
ghost use Rattle.lst_line_list.specs.Kinds.{width, told, AreOf};

use crate::keeping::{keep, keep_columns, make_room};
use crate::kinds::{Kept, Kind, put_line};
use crate::packed::PackedPatch;
use crate::parts::LineSlice;
use lst_model::{Key, Line, OutOfMemory};
use std::alloc::Global;
use std::marker::Model;

/// Lines in their order. A contract sees it as their list.
#[derive(Drop)]
pub struct LineList {
    kept: Vec<Kept>,
    numbers: Vec<u64>,
}

impl Model for LineList {
    ghost use Rattle.std.specs.Prelude.{List, map};
    ghost use Rattle.std.specs.List.{All};
    ghost use Rattle.lst_model.specs.declared.lines.Line.{Line};

    ghost Value = { List Line };

    ghost use Rattle.lst_line_list.specs.Kinds.{line_of, IsKept};

    ghost view = { λ l. map (line_of l.numbers.items) l.kept.items };

    ghost invariant = { λ l. All (IsKept l.numbers.items) l.kept.items };
}

impl LineList {
    /// No lines. It takes no memory.
    pub fn new(alloc: Global) -> LineList
        ensures { result ≡ [] }
    {
        LineList {
            kept: Vec::new(alloc),
            numbers: Vec::new(alloc),
        }
    }

    /// No lines, with room for so many with a number each. The only error is want of memory.
    pub fn with_capacity(alloc: Global, lines: usize) -> Result<LineList, OutOfMemory>
        ensures { IfOk result (λ list. list ≡ []) }
    {
        let kept = Vec::with_capacity(alloc, lines)?;
        let numbers = Vec::with_capacity(alloc, lines)?;
        Ok(LineList { kept, numbers })
    }

    /// The number of lines.
    pub fn len(&self) -> usize
        ensures { result ≡ length self.now }
    {
        self.kept.len()
    }

    /// Whether there is none.
    pub fn is_empty(&self) -> bool
        ensures { result ≡ (length self.now == 0) }
    {
        self.kept.is_empty()
    }

    /// Adds a line at the end. The only error is want of memory, and the list stays as it is then. It is also answered where the lines before have
    /// 2^32 numbers and more.
    #[inline(always)]
    pub fn push(&mut self, line: Line) -> Result<(), OutOfMemory>
        ensures ok { OnOk result (self.new ≡ self.old ++ line ∷ []) }
        ensures err { OnErr result (self.new ≡ self.old) }
    {
        make_room(&mut self.kept, 1)?;
        let one = keep(line, &mut self.numbers)?;
        self.kept.push_reserved(one);
        Ok(())
    }

    /// Adds an insert of a key by a session at the end, of the row of these columns: one that isn't set is null. The error is that of `push`.
    #[inline(always)]
    pub fn push_insert(
        &mut self,
        session: u32,
        key: Key,
        row: &PackedPatch,
    ) -> Result<(), OutOfMemory>
        ensures ok { OnOk result (self.new ≡ self.old ++ line.Call session (call.Insert key (map (λ change. unwrap_or change None) row.now)) ∷ []) }
        ensures err { OnErr result (self.new ≡ self.old) }
    {
        let columns = row.numbers();
        let kind = Kind::Insert {
            cells: columns.len() as u8,
            nulls: row.row_null_bits(),
        };
        self.push_columns(session, kind, key, columns)?;
        Ok(())
    }

    /// Adds an update of a key by a session at the end. The error is that of `push`.
    #[inline(always)]
    pub fn push_update(
        &mut self,
        session: u32,
        key: Key,
        patch: &PackedPatch,
    ) -> Result<(), OutOfMemory>
        ensures ok { OnOk result (self.new ≡ self.old ++ line.Call session (call.Update key patch.now) ∷ []) }
        ensures err { OnErr result (self.new ≡ self.old) }
    {
        let columns = patch.numbers();
        let kind = Kind::Update {
            cells: columns.len() as u8,
            set: patch.set_bits(),
            nulls: patch.null_bits(),
        };
        self.push_columns(session, kind, key, columns)?;
        Ok(())
    }

    /// Adds the line of a session and a kind whose numbers are a key and these.
    #[inline(always)]
    fn push_columns(
        &mut self,
        session: u32,
        kind: Kind,
        key: Key,
        columns: &[u64],
    ) -> Result<(), OutOfMemory>
        requires wide { width kind ≡ suc (length columns.now) }
        requires few { length columns.now ≤ 8 }
        requires are { AreOf kind (key ∷ columns.now) }
        ensures ok { OnOk result (self.new ≡ self.old ++ told session kind (key ∷ columns.now) ∷ []) }
        ensures err { OnErr result (self.new ≡ self.old) }
    {
        make_room(&mut self.kept, 1)?;
        let one = keep_columns(session, kind, key, columns, &mut self.numbers)?;
        self.kept.push_reserved(one);
        Ok(())
    }

    /// The line at a place, counted from 0, made anew. It takes no memory.
    pub fn line(&self, place: usize) -> Line
        requires { place < length self.now }
        ensures { slice_get self.now place ≡ Some result }
    {
        let mut line = Line::Phase;
        self.put_line(place, &mut line);
        line
    }

    /// Makes this the line at a place, counted from 0. It takes no memory, and unlike `line` it moves none.
    #[tactic(auto, using(crate::proofs::Behind::kept_at, crate::proofs::Behind::told_at))]
    #[inline(always)]
    pub fn put_line(&self, place: usize, line: &mut Line)
        requires { place < length self.now }
        ensures { slice_get self.now place ≡ Some line.new }
    {
        let one = self.kept[place];
        put_line(&self.numbers, one, line);
    }

    /// All lines.
    pub fn slice(&self) -> LineSlice<'_>
        ensures { result ≡ self.now }
    {
        LineSlice::of(self)
    }
}
