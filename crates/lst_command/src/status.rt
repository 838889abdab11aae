//! How a run of the program ends.
ghost use Rattle.std.specs.Prelude.{◌≡◌};
ghost use Rattle.lst_command.specs.Statuses.{status_code};

use lst_csv::TableFault;
use lst_script::FaultKind;

/// How a run ends.
#[derive(Clone, Copy, Debug, PartialEq, Eq)]
pub enum Status {
    /// The command did its work, and the whole output was written.
    Done,
    /// A report isn't legal for its script.
    Illegal,
    /// The words are no command line.
    Usage,
    /// A line of the input is faulty: the first such line, counted from 1.
    BadScript { line: u64, kind: FaultKind },
    /// The input has more bytes than the limit.
    TooLong,
    /// The source failed.
    ReadFault,
    /// The sink failed.
    WriteFault,
    /// Memory was wanting.
    OutOfMemory,
    /// A record of a table is faulty: the first such record, counted from 1.
    BadTable { place: u64, kind: TableFault },
}

impl Status {
    /// The number with which the program ends, 0 to 8.
    pub fn code(&self) -> u8
        ensures { result ≡ status_code self.now }
    {
        match self {
            Status::Done => 0,
            Status::Illegal => 1,
            Status::Usage => 2,
            Status::BadScript { .. } => 3,
            Status::TooLong => 4,
            Status::ReadFault => 5,
            Status::WriteFault => 6,
            Status::OutOfMemory => 7,
            Status::BadTable { .. } => 8,
        }
    }
}
