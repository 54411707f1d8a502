//! How a program of one file ended: the exit code, and the line on standard error.

ghost use Rattle.std.specs.Prelude.{◌≡◌};
ghost use Rattle.m2_program.specs.Status.{code_of, line_of};

use m2_bytes::{Blob, NoMemory};
use m2_edge::ReadFault;

/// How a program of one file ended.
#[derive(Debug, Drop)]
pub enum ProgramStatus {
    /// The text was printed.
    Done,
    /// The words are no single word.
    Usage,
    /// A line of the file is bad: what is said of it, with a line feed.
    BadLine(Blob),
    /// The file couldn't be read.
    ReadFault,
    /// Standard output or standard error couldn't be written.
    WriteFault,
    /// Memory ran out.
    NoMemory,
}

impl From<NoMemory> for ProgramStatus {
    ghost use Rattle.std.specs.Prelude.{◌≡◌};
    ghost use Rattle.m2_program.specs.declared.status.ProgramStatus.TheVariants as statuses;

    ghost from_gives = { λ _ s. s ≡ statuses.NoMemory };

    fn from(_e: NoMemory) -> ProgramStatus {
        ProgramStatus::NoMemory
    }
}

impl From<ReadFault> for ProgramStatus {
    ghost use Rattle.std.specs.Prelude.{◌≡◌};
    ghost use Rattle.m2_program.specs.Status.{status_of_fault};

    ghost from_gives = { λ fault s. s ≡ status_of_fault fault };

    fn from(fault: ReadFault) -> ProgramStatus {
        match fault {
            ReadFault::Failed => ProgramStatus::ReadFault,
            ReadFault::NoMemory => ProgramStatus::NoMemory,
        }
    }
}

impl ProgramStatus {
    /// The exit code of the program.
    pub fn code(&self) -> u8
        ensures { result ≡ code_of self.now }
    {
        match self {
            ProgramStatus::Done => 0,
            ProgramStatus::Usage => 1,
            ProgramStatus::BadLine(_) => 2,
            ProgramStatus::ReadFault => 3,
            ProgramStatus::WriteFault => 4,
            ProgramStatus::NoMemory => 9,
        }
    }

    /// The line that standard error gets, with its line feed, of a program with this usage line; nothing where the work is
    /// done.
    pub(crate) fn line<'a>(&'a self, usage: &'a [u8]) -> &'a [u8]
        ensures { result.now ≡ line_of usage.now self.now }
    {
        match self {
            ProgramStatus::Done => b"",
            ProgramStatus::Usage => usage,
            ProgramStatus::BadLine(complaint) => complaint.as_slice(),
            ProgramStatus::ReadFault => b"read fault\n",
            ProgramStatus::WriteFault => b"write fault\n",
            ProgramStatus::NoMemory => b"no memory\n",
        }
    }
}
