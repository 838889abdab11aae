//! Writes that join a session's and part from them.
ghost use Rattle.std.specs.Prelude.{◌≡◌, [], length, get_or};
ghost use Rattle.lst_model.specs.Histories.{StandByKey};

use crate::driving::same;
use lst_model::{Act, Key, Write, joined_write_is_last};
use lst_redo::OwnWrites;
use std::alloc::Global;
use std::test::Fail;

/// Joins a delete of a key to the writes of session 1, and answers its place.
fn join(own: &mut OwnWrites, alloc: Global, key: Key) -> Result<usize, Fail>
    requires two { length own.old ≡ 2 }
    requires order { StandByKey (get_or own.old 1 []) }
    ensures two { length own.new ≡ 2 }
    ensures order { StandByKey (get_or own.new 1 []) }
{
    joined_write_is_last();
    Ok(own.join(alloc, 1, Write { key, act: Act::Del })?)
}

/// The keys of its writes, which it has no more then.
fn keys(own: &mut OwnWrites, alloc: Global) -> Result<Vec<Key>, Fail>
    requires { length own.old ≡ 2 }
    ensures { length own.new ≡ 2 }
{
    let mut keys = Vec::new(alloc);
    for write in own.take(alloc, 1).items() {
        keys.push(write.key)?;
    }
    Ok(keys)
}

#[test]
fn writes_stand_by_key(rt: HostRuntime) -> Result<(), Fail> {
    let alloc = rt.alloc();
    let mut own = OwnWrites::new(alloc, 2)?;
    same(&rt, join(&mut own, alloc, 7)?, 0, 1);
    same(&rt, join(&mut own, alloc, 9)?, 1, 2);
    same(&rt, join(&mut own, alloc, 8)?, 1, 3);
    same(&rt, join(&mut own, alloc, 7)?, 1, 4);
    assert_eq!(rt; keys(&mut own, alloc)?.as_slice(), [7, 7, 8, 9].as_slice());
    same(&rt, own.count(1), 0, 5);
    Ok(())
}
