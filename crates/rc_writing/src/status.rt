//! How a run ends.
ghost use Rattle.std.specs.Prelude.{◌≡◌};

/// How a run ends.
#[derive(Clone, Copy)]
pub enum Status {
    /// The tables reached a fixed point; the whole text is written.
    Done,
    /// A file is refused; the refusal's line is written.
    Refused,
    /// The words aren't taken; the usage text is written.
    Usage,
    /// The tables repeat without a fixed point; the outcome's line is written.
    Repeats,
    /// The limit of rounds was reached; the outcome's line is written.
    Limit,
    /// The query needs more different nodes than its table may hold; nothing is written.
    Nodes,
    /// The folder failed; nothing is written.
    Source,
    /// The sink failed; a front of the text is written.
    Sink,
    /// Memory ran out; nothing is written.
    Memory,
    /// The network has no router or interface of the name that is asked for; the line that says so is written.
    NoPlace,
}

impl Status {
    ghost use Rattle.rc_writing.specs.Codes.{status_code};

    /// The exit status of the process: 0 to 9.
    pub fn code(self) -> u8
        ensures { result ≡ status_code self }
    {
        match self {
            Status::Done => 0,
            Status::Refused => 1,
            Status::Usage => 2,
            Status::Repeats => 3,
            Status::Limit => 4,
            Status::Nodes => 5,
            Status::Source => 6,
            Status::Sink => 7,
            Status::Memory => 8,
            Status::NoPlace => 9,
        }
    }
}
