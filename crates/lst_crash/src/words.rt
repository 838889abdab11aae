//! What the lines are answered, as text.
ghost use Rattle.std.specs.Prelude.{◌≡◌, ◌++◌, OnOk, decimal};
ghost use Rattle.lst_crash.specs.Crashes.{kept_text, speech};

use itoa::Buffer;
use lst_model::{Line, OutOfMemory, Text};
use lst_redo::Kept;
use lst_replies::push_line;

/// Appends what a line was answered. The only error is want of memory.
pub(crate) fn push_kept(text: &mut Text, line: &Line, kept: &Kept) -> Result<(), OutOfMemory>
    ensures { OnOk result (text.new ≡ text.old ++ kept_text line.now kept.now) }
{
    match kept {
        Kept::Reply { reply } => push_line(text, line, reply),
        Kept::JournalFull => push_speech(text, line, b"full journal\n"),
        Kept::DiskFault => push_speech(text, line, b"stopped\n"),
    }
}

/// Appends words, behind the session that a line names.
fn push_speech(text: &mut Text, line: &Line, words: &[u8]) -> Result<(), OutOfMemory>
    ensures { OnOk result (text.new ≡ text.old ++ speech line.now words.now) }
{
    if let Line::Call { session, .. } = line {
        let mut buffer = Buffer::new();
        text.push_bytes(buffer.format(*session).as_bytes())?;
        text.push_bytes(b" ")?;
    }
    text.push_bytes(words)
}
