//! How a report is printed.
ghost use Rattle.std.specs.Prelude.{◌≡◌, ℕ, ◌+◌, ◌++◌, ◌∷◌, [], length, IfOk, OnOk, decimal, flat_map};
ghost use Rattle.lst_replies.specs.ReportTexts.{told_text, history_line, stamp_line, stamps_text, report_text};

use crate::backward::{write_byte, write_few, write_number, write_word};
use crate::lines::push_told;
use crate::reports::{Report, Stamp};
use lst_model::{OutOfMemory, Reply, Text};
use std::alloc::Global;

/// The text of a report: a line for each reply, the number of commits, and a line for each commit. The only error is
/// want of memory.
pub fn print_report(alloc: Global, report: &Report) -> Result<Text, OutOfMemory>
    ensures { IfOk result (λ text. text ≡ report_text report.now) }
{
    let mut text = Text::new(alloc);
    push_replies(&mut text, report.replies.items())?;
    push_history(&mut text, report.history.items())?;
    Ok(text)
}

fn push_replies(text: &mut Text, replies: &[(Option<u32>, Reply)]) -> Result<(), OutOfMemory>
    ensures { OnOk result (text.new ≡ text.old ++ flat_map told_text replies.now) }
{
    for told in replies {
        push_told(text, told.0, &told.1)?;
    }
    Ok(())
}

fn push_history(text: &mut Text, stamps: &[Stamp]) -> Result<(), OutOfMemory>
    ensures { OnOk result (text.new ≡ text.old ++ ((history_line (length stamps.now) ++ 10 ∷ []) ++ stamps_text 1 stamps.now)) }
{
    push_count(text, stamps.len() as u64)?;
    push_stamps(text, stamps)
}

fn push_count(text: &mut Text, count: u64) -> Result<(), OutOfMemory>
    ensures { OnOk result (text.new ≡ text.old ++ (history_line count ++ 10 ∷ [])) }
{
    let mut buffer = [0; 32];
    let at = write_byte(&mut buffer, 32, b'\n');
    let at = write_number(&mut buffer, at, count);
    let at = write_word(&mut buffer, at, b"history ");
    text.push_bytes(&buffer[at..])
}

fn push_stamps(text: &mut Text, stamps: &[Stamp]) -> Result<(), OutOfMemory>
    ensures { OnOk result (text.new ≡ text.old ++ stamps_text 1 stamps.now) }
{
    for (place, stamp) in stamps.iter().enumerate() {
        push_stamp(text, place as u64 + 1, stamp)?;
    }
    Ok(())
}

fn push_stamp(text: &mut Text, time: u64, stamp: &Stamp) -> Result<(), OutOfMemory>
    ensures { OnOk result (text.new ≡ text.old ++ (stamp_line time stamp.now ++ 10 ∷ [])) }
{
    let mut buffer = [0; 64];
    let at = write_byte(&mut buffer, 64, b'\n');
    let at = write_number(&mut buffer, at, stamp.begin);
    let at = write_byte(&mut buffer, at, b' ');
    let at = write_few(&mut buffer, at, stamp.number);
    let at = write_byte(&mut buffer, at, b' ');
    let at = write_few(&mut buffer, at, stamp.session);
    let at = write_byte(&mut buffer, at, b' ');
    let at = write_number(&mut buffer, at, time);
    text.push_bytes(&buffer[at..])
}
