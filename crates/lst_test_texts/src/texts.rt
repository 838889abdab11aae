//! What the tests of texts share: comparisons, a changed byte, a drawn number, names, lines, and a row.

use arrayvec::ArrayVec;
use lst_layout::Limits;
use lst_model::{Call, Line, OutOfMemory, Row, Text};
use lst_names::Names;
use lst_script::{Script, ScriptFault, parse};
use std::alloc::Global;
use std::fmt::Debug;
use std::process::Abort;

/// What was found is what was wanted, at this place of a test.
pub(crate) fn same<T: PartialEq + Debug + Drop>(
    rt: &impl Abort,
    found: T,
    wanted: T,
    at: impl Debug + Drop,
) {
    assert_eq!(rt; found, wanted, "{at:?}");
}

/// The script has these lines.
pub(crate) fn has_lines(
    rt: &impl Abort,
    alloc: Global,
    script: &Script,
    lines: &[Line],
) -> Result<(), OutOfMemory> {
    let found = script.unpacked(alloc)?;
    same(rt, found.as_slice(), lines, "lines");
    Ok(())
}

/// A text is read as a script of these lines, under the limits that a store has by default.
pub(crate) fn is_read_as(
    rt: &impl Abort,
    alloc: Global,
    text: &[u8],
    lines: &[Line],
) -> Result<(), ScriptFault> {
    let script = parse(alloc, text, &Limits::default())?;
    has_lines(rt, alloc, &script, lines)?;
    Ok(())
}

/// A call of a session.
pub(crate) fn call(session: u32, call: Call) -> Line {
    Line::Call { session, call }
}

/// The text with this byte at a place.
pub(crate) fn with_byte(
    alloc: Global,
    text: &[u8],
    place: usize,
    byte: u8,
) -> Result<Vec<u8>, OutOfMemory> {
    let mut changed = text.to_vec(alloc)?;
    if let Some(old) = changed.get_mut(place) {
        *old = byte;
    }
    Ok(changed)
}

/// A number that follows another one, and looks drawn.
pub(crate) fn next_drawn(drawn: u64) -> u64 {
    drawn
        .wrapping_mul(6_364_136_223_846_793_005)
        .wrapping_add(1_442_695_040_888_963_407)
}

/// A text of these bytes.
pub(crate) fn text_of(alloc: Global, bytes: &[u8]) -> Result<Text, OutOfMemory> {
    Ok(Text::from_bytes(bytes.to_vec(alloc)?))
}

/// Names, each from its bytes.
pub(crate) fn names_of(alloc: Global, texts: &[&[u8]]) -> Result<Names, OutOfMemory> {
    let mut names = Names::new(alloc);
    for &name in texts {
        names.push(text_of(alloc, name)?)?;
    }
    Ok(names)
}

/// The row of two cells.
pub(crate) fn row(first: Option<u64>, second: Option<u64>) -> Row {
    let mut row = Row::of_numbers(ArrayVec::new());
    row.push(first);
    row.push(second);
    row
}
