// The words that the program was started with.
ghost use Rattle.std.specs.Prelude.{◌≡◌, ◌⊎◌, IfErr};
ghost use Rattle.std.specs.Process.{exit_status};

use crate::status::fail;
use std::alloc::{AllocError, Global};
use std::env::{self, Args, Env};
use std::io::ErrorKind;
use std::process::ExitCode;
use work_config::ServeFault;

const NOT_UTF8: &str = "error: a word of the command line isn't UTF-8

Usage: protols serve [--root DIR] [--proto-path DIR]... [--read-others]
                     [--workers N] [--stdio] [--clientProcessId ID]
       protols check [--root DIR] [--proto-path DIR]... [--read-others]
                     [--workers N] [--format FORMAT] [--quiet] [FILE]...

For more information, try '--help'.";

// The words in a list. (`collect` would ask for less once memory was refused.)
fn listed(alloc: Global, words: Args) -> Result<Vec<String>, AllocError> {
    let mut list = Vec::with_capacity(alloc, words.len())?;
    for word in words {
        list.push(word)?;
    }
    Ok(list)
}

/// The words that the program was started with, its own name first. If one isn't UTF-8, that is said on standard error and the status is 2; if
/// memory was refused, fault 803 is reported there, with the status 3.
pub fn read_words<R: Env + Eprint + AllocGlobal>(rt: &R) -> Result<Vec<String>, ExitCode>
    ensures { IfErr result (λ status. (exit_status status ≡ 2) ⊎ (exit_status status ≡ 3)) }
{
    match env::args(rt) {
        Ok(words) => match listed(rt.alloc(), words) {
            Ok(words) => Ok(words),
            Err(_) => Err(fail(rt, ServeFault::Memory.code())),
        },
        Err(error) if error.kind() == ErrorKind::OutOfMemory => {
            Err(fail(rt, ServeFault::Memory.code()))
        }
        Err(_) => {
            let _told = eprintln!(rt; "{NOT_UTF8}");
            Err(ExitCode::from(2))
        }
    }
}
