//! An open journal, and the lines that go through it.
ghost use Rattle.std.specs.Prelude.{◌≡◌, false, IfOk, OnOk};
ghost use Rattle.lst_layout.specs.Limits.{IsValid};
ghost use Rattle.lst_model.specs.Lines.{LineFits};
ghost use Rattle.lst_redo.specs.Journals.{IsOpenJournal};

use lst_disk::Disk;
use lst_layout::{Layout, Limits};
use lst_model::{History, Line, OutOfMemory, Text};
use lst_redo::{Kept, OpenRefusal, Redo, open_redo};
use lst_replies::push_line;
use lst_script::parse;
use std::alloc::Global;
use std::fmt::Debug;
use std::process::Abort;
use std::test::Fail;

/// A journal that lines go through. Its calls want it open until its disk fails, and leave it so.
#[derive(Drop)]
pub(crate) struct Driven<D: Disk> {
    redo: Redo<D>,
}

/// What was found is what was wanted, at this place.
pub(crate) fn same<T: PartialEq + Debug + Drop>(rt: &impl Abort, found: T, wanted: T, at: u64) {
    assert_eq!(rt; found, wanted, "at {at}");
}

/// A line, and the text of what it is answered.
pub(crate) type Step = (&'static str, &'static str);

/// The text of what a line was answered.
fn text_of(alloc: Global, kept: &Kept) -> Result<Text, OutOfMemory> {
    let mut text = Text::new(alloc);
    match kept {
        Kept::Reply { reply } => push_line(&mut text, &Line::Phase, reply)?,
        Kept::JournalFull => text.push_bytes(b"journal full\n")?,
        Kept::DiskFault => text.push_bytes(b"disk fault\n")?,
    }
    Ok(text)
}

/// The same, compared with what is wanted.
fn is_kept(
    rt: &(impl Abort + AllocGlobal),
    kept: &Kept,
    wanted: &str,
    line: &str,
) -> Result<(), Fail> {
    let text = text_of(rt.alloc(), kept)?;
    let text = text.as_bytes().strip_suffix(b"\n");
    assert_eq!(rt; text, Some(wanted.as_bytes()), "at {line}");
    Ok(())
}

/// The layout of a store with these limits.
pub(crate) fn layout_of(limits: &Limits) -> Result<Layout, Fail>
    ensures { OnOk result (IsValid limits.now) }
{
    match limits.check() {
        Ok(layout) => Ok(layout),
        Err(_) => Err("the limits are in range".into()),
    }
}

/// A journal over a disk, or its refusal.
pub(crate) fn tried<D: Disk + Drop>(
    alloc: Global,
    layout: &Layout,
    disk: D,
) -> Result<Driven<D>, OpenRefusal<D>>
    ensures { IfOk result (λ driven. driven.redo.failed ≡ false → IsOpenJournal D.content D.images driven.redo) }
{
    match open_redo(alloc, layout, disk) {
        Ok(redo) => Ok(Driven { redo }),
        Err(refusal) => Err(refusal),
    }
}

/// A journal over a disk, with the limits that a store has where none are named.
pub(crate) fn opened<D: Disk + Drop>(alloc: Global, disk: D) -> Result<Driven<D>, Fail>
    ensures { IfOk result (λ driven. driven.redo.failed ≡ false → IsOpenJournal D.content D.images driven.redo) }
{
    let layout = layout_of(&Limits::default())?;
    match tried(alloc, &layout, disk) {
        Ok(driven) => Ok(driven),
        Err(_) => Err("the disk is opened".into()),
    }
}

/// The one line of a text.
fn line_of(alloc: Global, limits: &Limits, text: &str) -> Result<Line, Fail>
    requires { IsValid limits.now }
    ensures { IfOk result (LineFits limits.now.sessions limits.now.ranges limits.now.columns) }
{
    let Ok(script) = parse(alloc, text.as_bytes(), limits) else {
        return Err("the text is a script".into());
    };
    if script.len() != 1 {
        return Err("the script has one line".into());
    }
    Ok(script.line(0))
}

impl<D: Disk> Driven<D> {
    /// What a line is answered.
    pub(crate) fn line(
        &mut self,
        alloc: Global,
        text: &str,
    ) -> Result<Result<Kept, OutOfMemory>, Fail>
        requires { self.old.redo.failed ≡ false → IsOpenJournal D.content D.images self.old.redo }
        ensures { self.new.redo.failed ≡ false → IsOpenJournal D.content D.images self.new.redo }
    {
        let limits = *self.redo.crew.seat.limits();
        layout_of(&limits)?;
        let line = line_of(alloc, &limits, text)?;
        if self.redo.failed() {
            return Err("no line follows a fault".into());
        }
        Ok(self.redo.line(alloc, &line))
    }

    /// Passes lines on, and compares what they are answered.
    pub(crate) fn play(
        &mut self,
        rt: &(impl Abort + AllocGlobal),
        lines: &[Step],
    ) -> Result<(), Fail>
        requires { self.old.redo.failed ≡ false → IsOpenJournal D.content D.images self.old.redo }
        ensures { self.new.redo.failed ≡ false → IsOpenJournal D.content D.images self.new.redo }
    {
        for (line, wanted) in lines {
            let kept = self.line(rt.alloc(), line)??;
            is_kept(rt, &kept, wanted, line)?;
        }
        Ok(())
    }

    /// Its commits.
    pub(crate) fn history(&mut self, alloc: Global) -> Result<History, Fail>
        requires { self.old.redo.failed ≡ false → IsOpenJournal D.content D.images self.old.redo }
        ensures { self.new.redo.failed ≡ false → IsOpenJournal D.content D.images self.new.redo }
    {
        if self.redo.failed() {
            return Err("no line has met a fault".into());
        }
        Ok(self.redo.history(alloc)?)
    }

    /// Whether its disk has failed.
    pub(crate) fn failed(&self) -> bool {
        self.redo.failed()
    }

    /// Its disk.
    pub(crate) fn close(self) -> D {
        self.redo.close()
    }
}
