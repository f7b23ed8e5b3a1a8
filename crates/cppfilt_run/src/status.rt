//! How a run ends.

ghost use Rattle.std.specs.Prelude.{◌≡◌};
ghost use Rattle.std.specs.Process.{exit_status};
ghost use Rattle.cppfilt_run.specs.StatusText.{code_of, message_of};

use std::process::ExitCode;

/// How a run ends.
#[derive(Clone, Copy, Debug, PartialEq, Eq)]
pub enum Status {
    /// All that is due was written.
    Done,
    /// Help was asked for, and was written.
    Help,
    /// The words are wrong.
    Usage,
    /// A read failed.
    ReadFault,
    /// A write to the output failed.
    WriteFault,
    /// The input has more bytes than are taken.
    InputTooLong,
    /// There was no memory.
    OutOfMemory,
}

impl Status {
    /// The process's exit status: 0 for `Done` and `Help`, else the status's own number from 2 to 6.
    pub fn code(&self) -> u8
        ensures { result ≡ code_of self.now }
    {
        match self {
            Status::Done => 0,
            Status::Help => 0,
            Status::Usage => 2,
            Status::ReadFault => 3,
            Status::WriteFault => 4,
            Status::InputTooLong => 5,
            Status::OutOfMemory => 6,
        }
    }

    /// What the process ends with: the exit status as the system takes it.
    pub fn exit_code(&self) -> ExitCode
        ensures { exit_status result ≡ code_of self.now }
    {
        ExitCode::from(self.code())
    }

    /// What is written to standard error, through its line feed; nothing for `Done` and `Help`, nor for `Usage`, whose
    /// text depends on the mistake.
    pub fn message(&self) -> &'static [u8]
        ensures { result.now ≡ message_of self.now }
    {
        match self {
            Status::Done => b"",
            Status::Help => b"",
            Status::Usage => b"",
            Status::ReadFault => b"cppfilt: read fault\n",
            Status::WriteFault => b"cppfilt: write fault\n",
            Status::InputTooLong => b"cppfilt: input too long\n",
            Status::OutOfMemory => b"cppfilt: out of memory\n",
        }
    }
}
