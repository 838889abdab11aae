//! A part of a list of lines.
ghost use Rattle.std.specs.Prelude.{◌≡◌, ◌==◌, ◌<◌, ◌≤◌, ◌-◌, Some, length, take, drop, slice_get, IfOk};

use crate::list::LineList;
use lst_model::{Line, OutOfMemory};
use std::alloc::Global;
use std::marker::Model;

/// The lines of a list from one place to another, which are lent. A contract sees it as their list.
#[derive(Drop)]
pub struct LineSlice<'a> {
    list: &'a LineList,
    start: usize,
    end: usize,
}

impl<'a> Model for LineSlice<'a> {
    ghost use Rattle.std.specs.Prelude.{List, ◌-◌, ◌≤◌, length, take, drop};
    ghost use Rattle.lst_model.specs.declared.lines.Line.{Line};

    ghost Value = { List Line };

    ghost view = { λ s. take (s.end - s.start) (drop s.start s.list.now) };

    ghost invariant = { λ s. (s.start ≤ s.end) × (s.end ≤ length s.list.now) };
}

impl<'a> LineSlice<'a> {
    /// All lines of a list.
    pub fn of(list: &'a LineList) -> LineSlice<'a>
        ensures { result ≡ list.now }
    {
        LineSlice {
            list,
            start: 0,
            end: list.len(),
        }
    }

    /// The number of lines.
    pub fn len(&self) -> usize
        ensures { result ≡ length self.now }
    {
        self.end - self.start
    }

    /// Whether there is none.
    pub fn is_empty(&self) -> bool
        ensures { result ≡ (length self.now == 0) }
    {
        self.start == self.end
    }

    /// The line at a place, counted from 0, made anew. It takes no memory.
    pub fn line(&self, place: usize) -> Line
        requires { place < length self.now }
        ensures { slice_get self.now place ≡ Some result }
    {
        let _end = self.end;
        self.list.line(self.start + place)
    }

    /// The lines, each made anew in memory of their own. The only error is want of memory.
    pub fn unpacked(&self, alloc: Global) -> Result<Vec<Line>, OutOfMemory>
        ensures { IfOk result (λ lines. lines.items ≡ self.now) }
    {
        let mut lines = Vec::with_capacity(alloc, self.len())?;
        for place in 0..self.len() {
            lines.push(self.line(place))?;
        }
        Ok(lines)
    }

    /// The lines from one place to another, the second one's line left out.
    pub fn part(&self, start: usize, end: usize) -> LineSlice<'a>
        requires order { start ≤ end }
        requires within { end ≤ length self.now }
        ensures { result ≡ take (end - start) (drop start self.now) }
    {
        LineSlice {
            list: self.list,
            start: self.start + start,
            end: self.start + end,
        }
    }
}
