//! Why a folder has no network.
ghost use Rattle.std.specs.Prelude.{◌≡◌};

use rc_base::FileName;
use rc_grammar::FileCause;

/// Why a file of a network is refused.
#[derive(Clone, Copy)]
pub enum NetCause {
    /// The file is refused by itself.
    File(FileCause),
    /// Its host name is that of an earlier file.
    TwiceNamed,
    /// A line of it names what no line of it defines: a `match` line a standard access list, a prefix list or a community list, a
    /// `redistribute` line a route map, or a `neighbor` line a route map or a prefix list.
    Undefined,
    /// It has more than 1,048,576 bytes.
    FileTooLong,
}

impl NetCause {
    ghost use Rattle.rc_network.specs.Codes.{net_code};

    /// The number of the refusal, which is printed.
    pub fn code(self) -> u8
        ensures { result ≡ net_code self }
    {
        match self {
            NetCause::File(cause) => cause.code(),
            NetCause::TwiceNamed => 8,
            NetCause::Undefined => 9,
            NetCause::FileTooLong => 11,
        }
    }
}

/// The first refusal of the files of a folder.
#[derive(Drop)]
pub enum NetRefusal {
    /// The folder has more than 512 configurations.
    TooManyFiles,
    /// A file is refused: its name, the number of the line, or 0 for the file as a whole, and the cause.
    InFile(FileName, u64, NetCause),
}

/// Why there is no network.
#[derive(Drop)]
pub enum BuildError {
    /// A file is refused.
    Refused(NetRefusal),
    /// Memory ran out.
    Memory,
}
