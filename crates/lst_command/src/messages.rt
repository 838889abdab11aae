//! The line that a run leaves on the sink of errors. It takes no memory.
ghost use Rattle.std.specs.Prelude.{◌≡◌, ◌+◌, ◌≤◌, [], ◌++◌, length};
ghost use Rattle.arrayvec.specs.ArrayVec.{array_vec_len};
ghost use Rattle.lst_command.specs.Statuses.{error_line};
ghost use Rattle.lst_command.specs.Answers.{Reports, change};

use crate::status::Status;
use arrayvec::ArrayVec;
use itoa::Buffer;
use lst_csv::TableFault;
use lst_io::{Sink, write_all};
use lst_script::FaultKind;

/// Room for the longest line, which has fewer than 80 bytes.
type Message = ArrayVec<u8, 128>;

/// Writes the line of a status, if it has one. A fault of the sink changes nothing else.
pub(crate) fn report<E: Sink>(status: &Status, errors: &mut E)
    ensures line { Reports status.now (change (E.taken errors.old) (E.faults errors.old) (E.taken errors.new) (E.faults errors.new)) }
    ensures later { E.faults errors.old ≤ E.faults errors.new }
{
    let line = message(status);
    if !line.as_slice().is_empty() {
        let _ = write_all(errors, line.as_slice());
    }
}

/// The line of a status, with its newline, or nothing where the command did its work.
fn message(status: &Status) -> Message
    ensures { result.items ≡ error_line status.now }
{
    let mut line = Message::new();
    match status {
        Status::Done | Status::Illegal => {}
        Status::Usage => append(&mut line, b"lstore: bad command line\n"),
        Status::BadScript { line: number, kind } => append_fault(&mut line, *number, *kind),
        Status::TooLong => append(&mut line, b"lstore: input too long\n"),
        Status::ReadFault => append(&mut line, b"lstore: read failed\n"),
        Status::WriteFault => append(&mut line, b"lstore: write failed\n"),
        Status::OutOfMemory => append(&mut line, b"lstore: out of memory\n"),
        Status::BadTable { place, kind } => append_table_fault(&mut line, *place, *kind),
    }
    line
}

fn append_fault(line: &mut Message, number: u64, kind: FaultKind)
    requires { line.old.items ≡ [] }
    ensures { line.new.items ≡ error_line (Status.BadScript number kind) }
{
    let mut buffer = Buffer::new();
    append(line, b"lstore: line ");
    append(line, buffer.format(number).as_bytes());
    append(line, b": ");
    append(line, kind.text().as_bytes());
    append(line, b"\n");
}

fn append_table_fault(line: &mut Message, place: u64, kind: TableFault)
    requires { line.old.items ≡ [] }
    ensures { line.new.items ≡ error_line (Status.BadTable place kind) }
{
    let mut buffer = Buffer::new();
    append(line, b"lstore: record ");
    append(line, buffer.format(place).as_bytes());
    append(line, b": ");
    append(line, kind.text().as_bytes());
    append(line, b"\n");
}

fn append(line: &mut Message, bytes: &[u8])
    requires { array_vec_len line.old + length bytes.now ≤ 128 }
    ensures items { line.new.items ≡ line.old.items ++ bytes.now }
    ensures len { array_vec_len line.new ≡ array_vec_len line.old + length bytes.now }
{
    let Ok(()) = line.try_extend_from_slice(bytes) else {
        unreachable!()
    };
}
