//! How the program ends.

/// How a call of the program ends.
#[derive(Clone, Copy, PartialEq, Eq)]
pub enum Status {
    /// The answer was written.
    Done,
    /// The words have no known form.
    Usage,
    /// The source is refused.
    Source,
    /// The limits are refused.
    Limits,
    /// The split exceeds a limit.
    Exceeded,
    /// The text of a split is refused, or its split isn't legal.
    Split,
    /// The trace is refused.
    Trace,
    /// The schedule is refused.
    Schedule,
    /// A file has more bytes than its size allows.
    TooLong,
    /// A file can't be read.
    ReadFault,
    /// The answer or a line can't be written.
    WriteFault,
    /// The switch failed in a replay.
    SwitchFault,
    /// No memory was found.
    NoMemory,
    /// The chain is refused, or isn't composed.
    Chain,
    /// The capture is refused.
    Pcap,
    /// The report is refused for its form.
    Report,
    /// The report isn't true.
    Audit,
}

impl Status {
    ghost use Rattle.std.specs.Prelude.{◌≡◌};
    ghost use Rattle.gallium_cli.specs.Status.{code_of};

    /// The exit code of the process.
    pub fn code(&self) -> u8
        ensures { result ≡ code_of self.now }
    {
        match self {
            Status::Done => 0,
            Status::Usage => 2,
            Status::Source => 3,
            Status::Limits => 4,
            Status::Exceeded => 5,
            Status::Split => 6,
            Status::Trace => 7,
            Status::Schedule => 8,
            Status::TooLong => 9,
            Status::ReadFault => 10,
            Status::WriteFault => 11,
            Status::SwitchFault => 12,
            Status::NoMemory => 13,
            Status::Chain => 14,
            Status::Pcap => 15,
            Status::Report => 16,
            Status::Audit => 17,
        }
    }
}
