//! Why a file is refused.
ghost use Rattle.std.specs.Prelude.{◌≡◌};

use rc_openings::LineRefusal;

/// Why a file is refused.
#[derive(Clone, Copy)]
pub enum FileCause {
    /// A line is refused by its grammar.
    Line(LineRefusal),
    /// A line has more than 4,096 bytes without its end.
    LineTooLong,
    /// No line gives the host name.
    NoHostName,
    /// A banner's delimiter doesn't come again.
    OpenBanner,
    /// The 257th interface.
    TooManyInterfaces,
}

impl FileCause {
    ghost use Rattle.rc_grammar.specs.Codes.{cause_code};

    /// The number of the refusal, which is printed.
    pub fn code(self) -> u8
        ensures { result ≡ cause_code self }
    {
        match self {
            FileCause::Line(refusal) => refusal.code(),
            FileCause::LineTooLong => 5,
            FileCause::NoHostName => 6,
            FileCause::OpenBanner => 7,
            FileCause::TooManyInterfaces => 12,
        }
    }
}

/// A refusal, and the number of the line that it names: 0 for the file as a whole.
#[derive(Clone, Copy)]
pub struct FileRefusal {
    pub line: u64,
    pub cause: FileCause,
}

/// Why a file has no model.
#[derive(Clone, Copy)]
pub enum ReadError {
    /// It is refused.
    Refused(FileRefusal),
    /// Memory ran out.
    Memory,
}
