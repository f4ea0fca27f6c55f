//! The case files: folders of files, the words of a command line, and what netcheck must say to them.
//!
//! The arguments are names of case files. For each this program tells how many runs it has, and each run that ends or says
//! otherwise than the file has it; its status is 0 where there is none. It stands on `run` of rc_analyse and on the
//! folders and sinks in memory of rc_outside. It promises nothing: what it tells is only seen where it runs.
//!
//! A case file is UTF-8. Each line is one of these:
//!
//! - `folder` forgets all files.
//! - `file NAME` puts a file into the folder `d`, or puts it anew. Its text is what stands behind the `|` of the next lines, each
//!   with a line end.
//! - `run WORDS` runs the words, parted by single blanks, over these files, and `run` alone runs no words. What stands behind the `|` of
//!   the next lines, each with a line end, must be said. The status must be the N of a line `status N` behind them, and 0 without one.
//! - Empty lines and those that begin with `#` say nothing.
#![tactic(auto)]

mod cases;
mod line;

use cases::Cases;
use std::alloc::AllocGlobal;
use std::process::ExitCode;
use std::rt::{Env, Files};
use std::thread::Threads;
use std::{env, fs, io};

/// What the runs and the case files want of a host.
pub trait Host: Threads + Sync + AllocGlobal + Env + Files + Print {}

impl<R: Threads + Sync + AllocGlobal + Env + Files + Print> Host for R {}

/// Whether all runs of a case file of this text agree with it.
fn text_agrees<R: Host>(rt: &R, name: &str, text: &str) -> io::Result<bool> {
    let mut cases = Cases::new(rt.alloc(), name);
    for line in text.split('\n') {
        cases.take(rt, line)?;
    }
    cases.end(rt)
}

/// Whether all runs of the case file of this name agree with it.
fn file_agrees<R: Host>(rt: &R, name: &str) -> io::Result<bool> {
    match fs::read_to_string(rt, name) {
        Ok(text) => text_agrees(rt, name, text.as_str()),
        Err(error) => {
            println!(rt; "{name}: not read: {error}")?;
            Ok(false)
        }
    }
}

/// Whether all runs of all case files that the arguments name agree with them.
fn all_agree<R: Host>(rt: &R) -> io::Result<bool> {
    let mut agree = true;
    for name in env::args(rt)?.skip(1) {
        let agrees = file_agrees(rt, name.as_str())?;
        agree = agree && agrees;
    }
    Ok(agree)
}

fn main(rt: HostRuntime) -> ExitCode {
    match all_agree(&rt) {
        Ok(true) => ExitCode::SUCCESS,
        Ok(false) | Err(_) => ExitCode::FAILURE,
    }
}
