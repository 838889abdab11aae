//! A text that holds a script and, behind the line `report`, a report that is claimed for it.
ghost use Rattle.std.specs.Prelude.{◌≡◌, ◌+◌, ◌<◌, ◌≤◌, length, drop, IfOk, IfErr, MatchResult};
ghost use Rattle.std.specs.Str.Lines.{strip_carriage_return};
ghost use Rattle.lst_layout.specs.Limits.{IsValid};
ghost use Rattle.lst_legal.specs.Judged.{AreSessionsBelow};
ghost use Rattle.lst_report.specs.declared.claims.Claim.{Claim as ClaimRead};
ghost use Rattle.lst_report.specs.Claims.{is_mark, IsMarkAt, IsUnmarked, IsClaim, Explains, IsRead};

use lst_layout::Limits;
use lst_replies::{Report, ReportFault, parse_report};
use lst_script::{FaultKind, Script, ScriptFault, newline_in, parse, without_carriage_return};
use std::alloc::Global;

/// The line between a script and its report.
const MARK: &[u8] = b"report";

/// A script, and a report that is claimed for it.
#[derive(Drop)]
pub struct Claim {
    pub script: Script,
    pub report: Report,
}

/// Where the line `report` stands: the number of lines before it, the bytes before it, and the place of what is behind it.
#[derive(Clone, Copy)]
struct Mark {
    lines: u64,
    front: usize,
    behind: usize,
}

/// Reads a script, the line `report`, and a report, for a store with these limits. Without such a line the whole text is the script.
///
/// `Bad` comes exactly where the text is none of this. A fault of the script comes first, by `parse`. Then, where no line is
/// `report`, the kind is `NoReport` and the line the number behind the last. Then, where what is behind it is no report, the kind is
/// `BadReport` and the line the first that can't stand in its place, or the number behind the last where the report ends too early.
/// Lines are counted from 1 over the whole text. `OutOfMemory` is want of memory, of which no clause says where it comes.
pub fn read_claim(alloc: Global, bytes: &[u8], limits: &Limits) -> Result<Claim, ScriptFault>
    requires { IsValid limits.now }
    ensures ok { IfOk result (λ claim. IsClaim limits.now bytes.now claim) }
    ensures fault { IfErr result (Explains limits.now bytes.now) }
    ensures only { (claim : ClaimRead) → IsClaim limits.now bytes.now claim → IsRead result }

    // What `legal` asks of the script.
    ensures sessions { IfOk result (λ claim. AreSessionsBelow limits.now.sessions claim.script) }
{
    match find_mark(bytes) {
        Ok(mark) => read_parts(alloc, bytes, mark, limits),
        Err(count) => Err(fault_without_report(alloc, bytes, count, limits)),
    }
}

/// The fault of a text of so many lines, none of which is the line `report`.
fn fault_without_report(alloc: Global, bytes: &[u8], count: u64, limits: &Limits) -> ScriptFault
    requires valid { IsValid limits.now }
    requires unmarked { IsUnmarked bytes.now count }
    requires few { count ≤ length bytes.now }
    ensures { Explains limits.now bytes.now result }
{
    match parse(alloc, bytes, limits) {
        Ok(_) => ScriptFault::Bad {
            line: count + 1,
            kind: FaultKind::NoReport,
        },
        Err(fault) => fault,
    }
}

/// The parts of a text on both sides of the line `report`.
#[tactic(auto, using(crate::proofs::Claimed::fault_few))]
fn read_parts(
    alloc: Global,
    bytes: &[u8],
    mark: Mark,
    limits: &Limits,
) -> Result<Claim, ScriptFault>
    requires valid { IsValid limits.now }
    requires mark { IsMarkAt bytes.now mark }
    ensures ok { IfOk result (λ claim. IsClaim limits.now bytes.now claim) }
    ensures fault { IfErr result (Explains limits.now bytes.now) }
{
    let script = parse(alloc, &bytes[..mark.front], limits)?;
    match parse_report(alloc, &bytes[mark.behind..], limits.columns) {
        Ok(report) => Ok(Claim { script, report }),
        Err(ReportFault::Bad { line }) => Err(ScriptFault::Bad {
            line: mark.lines + 1 + line,
            kind: FaultKind::BadReport,
        }),
        Err(ReportFault::OutOfMemory) => Err(ScriptFault::OutOfMemory),
    }
}

/// The first line that is the word `report`, or else the number of lines.
#[tactic(auto, using(crate::proofs::Marking::passed_few))]
fn find_mark(bytes: &[u8]) -> Result<Mark, u64>
    ensures found { MatchResult result (λ mark. IsMarkAt bytes.now mark) (λ count. IsUnmarked bytes.now count) }
    ensures few { IfErr result (λ count. count ≤ length bytes.now) }
{
    let size = bytes.len();
    let mut rest = bytes;
    let mut lines = 0;
    while let Some(end) = newline_in(rest) {
        let front = size - rest.len();
        if is_mark(&rest[..end]) {
            return Ok(Mark {
                lines,
                front,
                behind: front + end + 1,
            });
        }
        rest = behind(rest, end);
        lines += 1;
    }
    if is_mark(rest) {
        return Ok(Mark {
            lines,
            front: size - rest.len(),
            behind: size,
        });
    }
    if rest.is_empty() {
        return Err(lines);
    }
    Err(lines + 1)
}

/// What is behind the newline at this place.
fn behind(text: &[u8], end: usize) -> &[u8]
    requires { end < length text.now }
    ensures rest { result.now ≡ drop (end + 1) text.now }
    ensures shorter { length result.now < length text.now }
{
    &text[end + 1..]
}

/// Whether a line, from which a carriage return at its end is dropped, is the word `report`.
fn is_mark(line: &[u8]) -> bool
    ensures { result ≡ is_mark (strip_carriage_return line.now) }
{
    without_carriage_return(line) == MARK
}
