//! A table that is full.

use crate::calls::{SOUND, Wanted, comes_to};
use lst_model::OutOfMemory;
use std::alloc::Global;

/// A script that puts a row for each of the keys 1 to 257.
fn puts(alloc: Global) -> Result<String, OutOfMemory> {
    let mut script = String::from_str(alloc, "0 begin\n")?;
    let mut digits = itoa::Buffer::new();
    for key in 1u32..258 {
        script.push_str("0 insert ")?;
        script.push_str(digits.format(key))?;
        script.push_str(" 1 1\n")?;
    }
    Ok(script)
}

/// What is answered to it: the table takes 256 keys.
fn taken(alloc: Global) -> Result<String, OutOfMemory> {
    let mut answers = String::from_str(alloc, "0 begun 0\n")?;
    for _ in 1u32..257 {
        answers.push_str("0 ok\n")?;
    }
    answers.push_str("0 full table\n")?;
    Ok(answers)
}

#[test]
fn the_key_behind_256_finds_the_table_full(rt: HostRuntime) -> Result<(), OutOfMemory> {
    let script = puts(rt.alloc())?;
    let answers = taken(rt.alloc())?;
    let input = script.as_str().as_bytes();
    let wanted = Wanted::output(answers.as_str());
    comes_to(&rt, rt.alloc(), 0, "run --ranges 1", input, &SOUND, wanted)
}
