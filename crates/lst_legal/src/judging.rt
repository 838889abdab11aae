//! Whether a report is legal.
ghost use Rattle.std.specs.Prelude.{◌↔◌, ◌<◌, IsTrue, IfSome, IfOk, All};
ghost use Rattle.lst_model.specs.Soundness.{IsSound};
ghost use Rattle.lst_replies.specs.Legal.{IsLegalReport};
ghost use Rattle.lst_legal_runs.specs.Places.{AreTraced, AreWithin, run_at};
ghost use Rattle.lst_legal_runs.specs.Gathering.{CommitsNothing};
ghost use Rattle.lst_legal.specs.Judged.{AreSessionsBelow, FollowsRules, FollowsSerial, FollowsLevel, FollowsAll, IsJudged, IsLegalAt};
ghost use Rattle.lst_serial_laws.specs.Legal.{IsLegalSerialReport};
ghost use Rattle.lst_replies.specs.Runs.{speaker_of};

use crate::places::are_commits_in_place;
use crate::sights::are_sights_told;
use crate::stales::are_stales_explained;
use lst_layout::Limits;
use lst_legal_runs::{
    Level, Place, are_conflicts_explained, are_merges_consistent, are_refusals_exact,
    are_times_bounded, gather, is_fullness_explained, trace,
};
use lst_model::{Line, OutOfMemory};
use lst_replies::{Report, Stamp, has_reply_shape, paired};
use lst_snapshots::{Swept, snapshots_of};
use std::alloc::Global;

/// Whether a store with these limits may give this report to a script of these lines: whether the report is legal. The
/// sessions of the script are below the limit. It takes the time of the lines and the replies, and of the rows that they tell,
/// but for a logarithm; a sum, a count, a scan or a find takes the time of the rows that its own transaction has written, too.
pub fn legal(
    alloc: Global,
    limits: &Limits,
    lines: &[Line],
    report: &Report,
) -> Result<bool, OutOfMemory>
    requires { AreSessionsBelow limits.now.sessions lines.now }
    ensures { IfOk result (λ b. IsTrue b ↔ IsLegalReport limits.now lines.now report.now) }
{
    legal_at(alloc, Level::Snapshot, limits, lines, report)
}

/// Whether a store with these limits may give this report to a script of these lines where its sessions are at the serializable
/// level: whether the report is legal there. The sessions of the script are below the limit. It takes the time of `legal`, and
/// once more that of what reads tell; a commit that is told stale takes the time of the shorter of two lists, the keys that its transaction has named and the
/// writes of the commit that it names, and that once for each such commit.
pub fn legal_serial(
    alloc: Global,
    limits: &Limits,
    lines: &[Line],
    report: &Report,
) -> Result<bool, OutOfMemory>
    requires { AreSessionsBelow limits.now.sessions lines.now }
    ensures { IfOk result (λ b. IsTrue b ↔ IsLegalSerialReport limits.now lines.now report.now) }
{
    legal_at(alloc, Level::Serializable, limits, lines, report)
}

/// Whether a store with these limits may give this report to a script of these lines at a level: `legal` for snapshot isolation, and
/// `legal_serial` for the serializable level. The sessions of the script are below the limit.
pub fn legal_at(
    alloc: Global,
    level: Level,
    limits: &Limits,
    lines: &[Line],
    report: &Report,
) -> Result<bool, OutOfMemory>
    requires { AreSessionsBelow limits.now.sessions lines.now }
    ensures { IfOk result (λ b. IsTrue b ↔ IsLegalAt level limits.now lines.now report.now) }
{
    if !has_reply_shape(lines, report.replies.items()) {
        return Ok(false);
    }
    let run = paired(alloc, lines, report.replies.items())?;
    let places = trace(alloc, limits.sessions, &run)?;
    let judged = judge(alloc, level, limits, report.history.items(), &places)?;
    Ok(judged)
}

/// Whether the sessions of these lines are below this number.
pub fn are_sessions_below(sessions: u32, lines: &[Line]) -> bool
    ensures { IsTrue result ↔ AreSessionsBelow sessions lines.now }
{
    for line in lines {
        if !is_session_below(sessions, line) {
            return false;
        }
    }
    true
}

fn is_session_below(sessions: u32, line: &Line) -> bool
    ensures { IsTrue result ↔ IfSome (speaker_of line.now) (λ session. session < sessions) }
{
    match line {
        Line::Call { session, .. } => *session < sessions,
        _ => true,
    }
}

/// Whether there is a history that matches the committed replies of a run, and under which all rules hold.
fn judge(
    alloc: Global,
    level: Level,
    limits: &Limits,
    stamps: &[Stamp],
    places: &[Place],
) -> Result<bool, OutOfMemory>
    requires within { AreWithin limits.now.sessions (run_at places.now) }
    requires calls { All CommitsNothing (run_at places.now) }
    requires traced { AreTraced places.now }
    ensures { IfOk result (λ b. IsTrue b ↔ IsJudged level limits.now (run_at places.now) stamps.now) }
{
    let Some(history) = gather(alloc, limits.sessions, stamps, places)? else {
        return Ok(false);
    };
    let Some(snapshots) = snapshots_of(alloc, history)? else {
        return Ok(false);
    };
    let swept = Swept::of(alloc, snapshots)?;
    let follows = follows_all(alloc, level, limits, &swept, places)?;
    Ok(follows)
}

/// Whether the lines of a run follow the rules of the level, under a sound history.
fn follows_all(
    alloc: Global,
    level: Level,
    limits: &Limits,
    swept: &Swept,
    places: &[Place],
) -> Result<bool, OutOfMemory>
    requires within { AreWithin limits.now.sessions (run_at places.now) }
    requires traced { AreTraced places.now }
    requires sound { IsSound swept.now }
    ensures { IfOk result (λ b. IsTrue b ↔ FollowsAll level limits.now swept.now (run_at places.now)) }
{
    if !follows_rules(alloc, level, limits, swept, places)? {
        return Ok(false);
    }
    follows_level(alloc, level, limits.sessions, swept, places)
}

/// Whether they follow the rules that the level adds: the serializable one has two.
fn follows_level(
    alloc: Global,
    level: Level,
    sessions: u32,
    swept: &Swept,
    places: &[Place],
) -> Result<bool, OutOfMemory>
    requires within { AreWithin sessions (run_at places.now) }
    requires traced { AreTraced places.now }
    requires sound { IsSound swept.now }
    ensures { IfOk result (λ b. IsTrue b ↔ FollowsLevel level swept.now (run_at places.now)) }
{
    match level {
        Level::Snapshot => Ok(true),
        Level::Serializable => follows_serial(alloc, sessions, swept, places),
    }
}

/// Whether commits are at their serial places, and stale ones are explained.
fn follows_serial(
    alloc: Global,
    sessions: u32,
    swept: &Swept,
    places: &[Place],
) -> Result<bool, OutOfMemory>
    requires within { AreWithin sessions (run_at places.now) }
    requires traced { AreTraced places.now }
    requires sound { IsSound swept.now }
    ensures { IfOk result (λ b. IsTrue b ↔ FollowsSerial swept.now (run_at places.now)) }
{
    if !are_stales_explained(alloc, sessions, swept.snapshots(), places)? {
        return Ok(false);
    }
    are_commits_in_place(alloc, sessions, swept, places)
}

/// Whether the lines of a run follow the rules of both levels, under a history, with the level's own on ends.
fn follows_rules(
    alloc: Global,
    level: Level,
    limits: &Limits,
    swept: &Swept,
    places: &[Place],
) -> Result<bool, OutOfMemory>
    requires within { AreWithin limits.now.sessions (run_at places.now) }
    requires traced { AreTraced places.now }
    ensures { IfOk result (λ b. IsTrue b ↔ FollowsRules level limits.now swept.now (run_at places.now)) }
{
    if !are_refusals_exact(level, limits, places) {
        return Ok(false);
    }
    if !are_merges_consistent(alloc, limits, places)? {
        return Ok(false);
    }
    if !are_times_bounded(alloc, swept.commits(), places)? {
        return Ok(false);
    }
    if !is_fullness_explained(alloc, limits, swept.commits(), places)? {
        return Ok(false);
    }
    if !are_conflicts_explained(alloc, swept.commits(), places)? {
        return Ok(false);
    }
    let told = are_sights_told(alloc, limits, limits.sessions, swept, places)?;
    Ok(told)
}
