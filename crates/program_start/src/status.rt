// The status that the program ends with, and what it says on standard error. A standard error that is closed changes nothing
// of the status.
ghost use Rattle.std.specs.Prelude.{◌≡◌, ◌⊎◌};
ghost use Rattle.std.specs.Process.{exit_status};
ghost use Rattle.program_start.specs.Status.{check_status, failure_status, IsHelp};

use crate::failure::{Failure, FileFault};
use program_folder::FolderFault;
use std::process::ExitCode;
use work_config::ServeFault;

/// Says on standard error which fault it was, by its number. The status is 3.
pub fn fail(rt: &impl Eprint, fault: u32) -> ExitCode
    ensures { exit_status result ≡ 3 }
{
    let _told = eprintln!(rt; "protols: fault {fault}");
    ExitCode::from(3)
}

// Says that a folder can't be read, which and why.
fn fail_folder(rt: &impl Eprint, fault: &FolderFault<'_>) -> ExitCode
    ensures { exit_status result ≡ 3 }
{
    let _told = eprintln!(rt; "protols: folder");
    let _explained = eprintln!(rt; "protols: folder {fault}");
    ExitCode::from(3)
}

// Says that a file can't be checked, which and why: the command line is wrong.
fn fail_file(rt: &impl Eprint, file: &str, fault: &FileFault) -> ExitCode
    ensures { exit_status result ≡ 2 }
{
    let _told = eprintln!(rt; "error: {file}: {fault}");
    ExitCode::from(2)
}

/// Says on standard error why the program ended before its session or its check did. The status is 2 if the command line names a file that
/// can't be checked, else 3.
pub fn failed(rt: &impl Eprint, failure: &Failure<'_>) -> ExitCode
    ensures { exit_status result ≡ failure_status failure.now }
{
    match failure {
        Failure::Folder(fault) => fail_folder(rt, fault),
        Failure::File(file, fault) => fail_file(rt, file, fault),
        Failure::Fault(code) => fail(rt, *code),
    }
}

/// The status of a check, by whether an error was found: 1 if one was, and 0 if none was. If the check failed, what [`failed`] says and answers.
pub fn status_of_check(rt: &impl Eprint, checked: Result<bool, Failure<'_>>) -> ExitCode
    ensures { exit_status result ≡ check_status checked.entry }
{
    match checked {
        Ok(found) => ExitCode::from(if found { 1 } else { 0 }),
        Err(failure) => failed(rt, &failure),
    }
}

/// Writes what is to be said of the command line: the help to standard output, with the status 0, or what is wrong with it to standard
/// error, with the status 2. Help that can't be written is fault 802, with the status 3.
pub fn explain<R: Print + Eprint>(rt: &R, error: &clap::Error) -> ExitCode
    ensures help { IsHelp error.now → (exit_status result ≡ 0) ⊎ (exit_status result ≡ 3) }
    ensures mistake { ¬ (IsHelp error.now) → exit_status result ≡ 2 }
{
    let told = error.print(rt);
    if error.use_stderr() {
        ExitCode::from(2)
    } else if told.is_err() {
        fail(rt, ServeFault::Write.code())
    } else {
        ExitCode::from(0)
    }
}
