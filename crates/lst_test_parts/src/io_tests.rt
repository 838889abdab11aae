//! Faults at given calls, the limit of an input to the byte, and the edge to std's readers and writers.

use crate::same::same;
use lst_io::{
    Failed, MemSink, MemSource, ReadAllFault, Sink, Source, StdSink, StdSource, read_all, write_all,
};
use lst_model::{KeyList, Text};
use std::alloc::Global;
use std::io::{Read, Write};
use std::process::Abort;
use std::test::Fail;
use std::{io, vec};

fn source(alloc: Global, bytes: &[u8], fails: &[u64]) -> Result<MemSource, Fail> {
    let bytes = Text::from_bytes(bytes.to_vec(alloc)?);
    let fails = KeyList::from_items(fails.to_vec(alloc)?);
    Ok(MemSource::new(bytes, fails, 3))
}

fn sink(alloc: Global, fails: &[u64], step: usize) -> Result<MemSink, Fail> {
    let fails = KeyList::from_items(fails.to_vec(alloc)?);
    Ok(MemSink::new(alloc, fails, step)?)
}

/// Whether what is left of a source is these bytes.
fn reads<S: Source>(alloc: Global, source: &mut S, bytes: &[u8]) -> bool {
    match read_all(alloc, source, 8_192) {
        Ok(text) => text.as_bytes() == bytes,
        Err(_) => false,
    }
}

#[test]
fn a_source_is_read_to_its_end(rt: HostRuntime) -> Result<(), Fail> {
    let alloc = rt.alloc();
    let mut source = source(alloc, b"0 begin\n", &[])?;
    same(&rt, reads(alloc, &mut source, b"0 begin\n"), true, "text");
    same(&rt, reads(alloc, &mut source, b""), true, "end");
    Ok(())
}

#[test]
fn a_read_that_fails_takes_no_byte(rt: HostRuntime) -> Result<(), Fail> {
    let alloc = rt.alloc();
    let mut source = source(alloc, b"0 begin\n", &[2])?;
    let fault = read_all(alloc, &mut source, 8_192).err();
    same(&rt, fault, Some(ReadAllFault::Failed), "fault");
    same(&rt, reads(alloc, &mut source, b"egin\n"), true, "rest");
    Ok(())
}

/// How many bytes are read of these, up to a limit.
fn reads_up_to(
    rt: &impl Abort,
    alloc: Global,
    bytes: &[u8],
    limit: u32,
    wanted: Result<usize, ReadAllFault>,
) -> Result<(), Fail> {
    let mut source = source(alloc, bytes, &[])?;
    let text = read_all(alloc, &mut source, u64::from(limit));
    same(rt, text.map(|text| text.len()), wanted, bytes.len());
    Ok(())
}

#[test]
fn the_limit_is_exact(rt: HostRuntime) -> Result<(), Fail> {
    let alloc = rt.alloc();
    let full = vec![in alloc; b'\n'; 8_192]?;
    reads_up_to(&rt, alloc, full.as_slice(), 8_192, Ok(8_192))?;
    let over = vec![in alloc; b'\n'; 8_193]?;
    let too_long = Err(ReadAllFault::TooLong);
    reads_up_to(&rt, alloc, over.as_slice(), 8_192, too_long)?;
    reads_up_to(&rt, alloc, b"", 0, Ok(0))?;
    reads_up_to(&rt, alloc, b"x", 0, too_long)
}

/// What is taken of five bytes by a sink that takes two at a time, and fails at these calls.
fn takes(
    rt: &impl Abort,
    alloc: Global,
    fails: &[u64],
    answer: Result<(), Failed>,
    taken: &[u8],
) -> Result<(), Fail> {
    let mut sink = sink(alloc, fails, 2)?;
    same(rt, write_all(&mut sink, b"abcde"), answer, "answer");
    same(rt, sink.taken(), taken, "taken");
    Ok(())
}

#[test]
fn a_write_that_fails_leaves_a_front(rt: HostRuntime) -> Result<(), Fail> {
    takes(&rt, rt.alloc(), &[], Ok(()), b"abcde")?;
    takes(&rt, rt.alloc(), &[3], Err(Failed), b"abcd")
}

#[test]
fn a_full_sink_fails(rt: HostRuntime) -> Result<(), Fail> {
    let alloc = rt.alloc();
    let mut sink = sink(alloc, &[], 100_000)?;
    let much = vec![in alloc; b'x'; 65_537]?;
    same(
        &rt,
        write_all(&mut sink, much.as_slice()),
        Err(Failed),
        "much",
    );
    same(&rt, sink.taken().len(), 65_536, "taken");
    same(&rt, sink.write(b""), Ok(0), "nothing");
    Ok(())
}

/// A reader that fails once, and a writer that takes nothing once.
#[derive(Drop)]
struct Broken {
    calls: u8,
}

impl Read for Broken {
    fn read(&mut self, buf: &mut [u8]) -> io::Result<usize> {
        self.calls = self.calls.saturating_add(1);
        if self.calls == 1 {
            return Err(io::Error::from(io::ErrorKind::BrokenPipe));
        }
        let _room = buf.len();
        Ok(0)
    }
}

impl Write for Broken {
    fn write(&mut self, buf: &[u8]) -> io::Result<usize> {
        self.calls = self.calls.saturating_add(1);
        if self.calls == 1 {
            Ok(0)
        } else {
            Ok(buf.len())
        }
    }

    fn flush(&mut self) -> io::Result<()> {
        Ok(())
    }
}

#[test]
fn a_reader_of_std_is_a_source(rt: HostRuntime) -> Result<(), Fail> {
    let mut bytes = StdSource::new(b"0 get 7".as_slice());
    same(
        &rt,
        reads(rt.alloc(), &mut bytes, b"0 get 7"),
        true,
        "bytes",
    );
    let mut broken = StdSource::new(Broken { calls: 0 });
    same(&rt, broken.read(&mut [0; 4]), Err(Failed), "broken");
    same(&rt, broken.read(&mut [0; 4]), Ok(0), "end");
    Ok(())
}

#[test]
fn a_writer_of_std_is_a_sink(rt: HostRuntime) -> Result<(), Fail> {
    let mut bytes = Vec::new(rt.alloc());
    same(
        &rt,
        write_all(&mut StdSink::new(&mut bytes), b"0 ok\n"),
        Ok(()),
        "written",
    );
    same(&rt, bytes.as_slice(), b"0 ok\n".as_slice(), "bytes");
    let mut broken = StdSink::new(Broken { calls: 0 });
    same(
        &rt,
        write_all(&mut broken, b"0 ok\n"),
        Err(Failed),
        "broken",
    );
    same(&rt, write_all(&mut broken, b"0 ok\n"), Ok(()), "mended");
    Ok(())
}
