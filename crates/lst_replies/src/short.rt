//! Replies of one to four words.
ghost use Rattle.std.specs.Prelude.{◌≡◌};
ghost use Rattle.lst_replies.specs.Reading.{texts, word_reply, refusal_named, fullness_named, cause_named, numbered_reply, timed_cause, open_cause, short_reply, merge_reply};

use crate::numbers::{read_number, read_u32, read_u64};
use lst_model::{Cause, Reply};

fn word_reply(word: &[u8]) -> Option<Reply>
    ensures { result ≡ word_reply word.now }
{
    if word == b"ok".as_slice() {
        Some(Reply::Done)
    } else if word == b"none".as_slice() {
        Some(Reply::Absent)
    } else if word == b"aborted".as_slice() {
        Some(Reply::Aborted)
    } else {
        None
    }
}

fn refusal_named(word: &[u8]) -> Option<Cause>
    ensures { result ≡ refusal_named word.now }
{
    if word == b"idle".as_slice() {
        Some(Cause::Idle)
    } else if word == b"active".as_slice() {
        Some(Cause::Active)
    } else if word == b"readonly".as_slice() {
        Some(Cause::ReadOnly)
    } else if word == b"spent".as_slice() {
        Some(Cause::Spent)
    } else if word == b"missing".as_slice() {
        Some(Cause::Missing)
    } else if word == b"exists".as_slice() {
        Some(Cause::Exists)
    } else if word == b"noindex".as_slice() {
        Some(Cause::NotIndexed)
    } else {
        None
    }
}

fn fullness_named(word: &[u8]) -> Option<Cause>
    ensures { result ≡ fullness_named word.now }
{
    if word == b"table".as_slice() {
        Some(Cause::TableFull)
    } else if word == b"tail".as_slice() {
        Some(Cause::TailFull)
    } else {
        None
    }
}

fn cause_named(first: &[u8], second: &[u8]) -> Option<Cause>
    ensures { result ≡ cause_named first.now second.now }
{
    if first == b"refused".as_slice() {
        refusal_named(second)
    } else if first == b"full".as_slice() {
        fullness_named(second)
    } else if first == b"conflict".as_slice() && second == b"latched".as_slice() {
        Some(Cause::Latched)
    } else {
        None
    }
}

fn numbered_reply(name: &[u8], word: &[u8]) -> Option<Reply>
    ensures { result ≡ numbered_reply name.now word.now }
{
    if name == b"begun".as_slice() {
        read_u64(word).map(|time| Reply::Begun { time })
    } else if name == b"committed".as_slice() {
        read_u64(word).map(|time| Reply::Committed { time })
    } else if name == b"ended".as_slice() {
        read_u64(word).map(|time| Reply::Ended { time })
    } else if name == b"count".as_slice() {
        read_u64(word).map(|rows| Reply::Count { rows })
    } else if name == b"sum".as_slice() {
        read_number(word).map(|total| Reply::Sum { total })
    } else {
        None
    }
}

fn timed_cause(first: &[u8], second: &[u8], word: &[u8]) -> Option<Cause>
    ensures { result ≡ timed_cause first.now second.now word.now }
{
    if first == b"refused".as_slice() && second == b"future".as_slice() {
        read_u64(word).map(|clock| Cause::Future { clock })
    } else if first == b"conflict".as_slice() && second == b"newer".as_slice() {
        read_u64(word).map(|time| Cause::Newer { time })
    } else if first == b"conflict".as_slice() && second == b"stale".as_slice() {
        read_u64(word).map(|time| Cause::Stale { time })
    } else {
        None
    }
}

fn open_cause(first: &[u8], second: &[u8], third: &[u8], fourth: &[u8]) -> Option<Cause>
    ensures { result ≡ open_cause first.now second.now third.now fourth.now }
{
    if first != b"conflict".as_slice() || second != b"open".as_slice() {
        return None;
    }
    let session = read_u32(third)?;
    let number = read_u32(fourth)?;
    Some(Cause::Unfinished { session, number })
}

/// The reply of one to four words that these are.
pub(crate) fn short_reply(words: &[&[u8]]) -> Option<Reply>
    ensures { result ≡ short_reply (texts words.now) }
{
    match words {
        [first] => word_reply(first),
        [first, second] => match cause_named(first, second) {
            Some(cause) => Some(Reply::Refused { cause }),
            None => numbered_reply(first, second),
        },
        [first, second, third] => timed_cause(first, second, third).map(|cause| Reply::Refused {
            cause,
        }),
        [first, second, third, fourth] => open_cause(first, second, third, fourth).map(
            |cause| Reply::Refused { cause },
        ),
        _ => None,
    }
}

/// The reply to a merge that these words are.
pub(crate) fn merge_reply(words: &[&[u8]]) -> Option<Reply>
    ensures { result ≡ merge_reply (texts words.now) }
{
    let [name, word] = words else {
        return None;
    };
    if *name == b"merged".as_slice() {
        read_u32(word).map(|tps| Reply::Merged { tps })
    } else if *name == b"idle".as_slice() {
        read_u32(word).map(|tps| Reply::NothingNew { tps })
    } else if *name == b"noframe".as_slice() {
        read_u32(word).map(|session| Reply::NoFrame { session })
    } else {
        None
    }
}
