//! The program: the whole call over the files and streams of the system and a modelled switch, with its status as the
//! exit code.
#![tactic(auto)]

ghost use Rattle.std.specs.Prelude.{◌≡◌};
ghost use Rattle.std.specs.Process.{exit_status};
ghost use Rattle.gallium_cli.specs.Status.{code_of};

use gal_io::{HostFiles, HostSink};
use gallium_cli::Status;
use std::process::ExitCode;
use std::{env, io};
use switch_machine::ModelSwitch;

/// The code where the words can't be had from the system for want of memory.
const NO_MEMORY: u8 = 13;

/// The code where the words can't be had for another cause. No status has it.
const NO_WORDS: u8 = 18;

/// How the process ends once the program has.
fn ending(status: Status) -> ExitCode
    ensures { exit_status result ≡ code_of status }
{
    ExitCode::from(status.code())
}

fn main(rt: HostRuntime) -> ExitCode {
    let alloc = rt.alloc();
    let words = match env::args(&rt) {
        Ok(words) => words.skip(1).collect::<Vec<String>>(alloc),
        Err(error) if error.kind() == io::ErrorKind::OutOfMemory => return ExitCode::from(
            NO_MEMORY,
        ),
        Err(_) => return ExitCode::from(NO_WORDS),
    };
    let Ok(words) = words else {
        return ExitCode::from(NO_MEMORY);
    };
    let mut files = HostFiles::new(&rt);
    let mut port = ModelSwitch::new(alloc);
    let mut out = HostSink::new(rt.stdout());
    let mut err = HostSink::new(rt.stderr());
    ending(gallium_cli::gallium(alloc, &words, &mut files, &mut port, &mut out, &mut err))
}
