// The program's command `check`.
ghost use Rattle.std.specs.Prelude.{◌≡◌, IfErr};

use crate::failure::Failure;
use crate::folders::check_of;
use crate::summary::tell_summary;
use lsp_frame::ToWrite;
use program_folder::FolderReader;
use program_options::words::Options;
use std::alloc::Global;
use std::io;
use std::marker::Send;
use std::rt::Files;
use std::sync::{Arc, Wait};
use std::thread::Threads;
use work_check::{Asked, Checked, check_as};
use work_config::ServeFault;
use work_index::OpenGate;

/// A gate that no worker waits at. `Memory` if memory was refused.
pub fn open_gate(alloc: Global) -> Result<Arc<OpenGate>, ServeFault>
    ensures { IfErr result (λ fault. fault ≡ ServeFault.Memory) }
{
    match Arc::new(alloc, OpenGate) {
        Ok(gate) => Ok(gate),
        Err(_) => Err(ServeFault::Memory),
    }
}

// Writes the lines of a check to standard output, and answers what was found.
fn check_with<R: Threads + Wait + Clone + Send + Drop + Print + AllocGlobal + 'static>(
    rt: &R,
    asked: Asked,
) -> Result<Checked, ServeFault> {
    let alloc = rt.alloc();
    let gate = open_gate(alloc)?;
    let mut writer = ToWrite::new(io::writer(rt));
    check_as(rt, alloc, &mut writer, &gate, asked)
}

/// Checks what these options ask for: writes the lines to standard output, says on standard error how much was checked unless the options ask
/// for quiet, and answers whether an error was found.
///
/// `Failure::Folder` if a folder can't be read, `Failure::File` if a file that is named isn't among those that were found, and else the number of
/// the fault, as [`check_as`] has them.
pub fn check_files<
    'd,
    R: Threads
        + Wait
        + Clone
        + Send
        + Drop
        + FolderReader
        + Files
        + Print
        + Eprint
        + AllocGlobal
        + 'static,
>(rt: &R, options: &Options<'d>) -> Result<bool, Failure<'d>> {
    let asked = check_of(rt, options)?;
    let checked = check_with(rt, asked)?;
    if !options.quiet {
        tell_summary(rt, &checked);
    }
    Ok(checked.errors > 0)
}
