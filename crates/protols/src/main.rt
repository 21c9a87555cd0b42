//! `protols`, a language server and checker for proto3: `protols serve` serves an editor on standard input and output,
//! `protols check` lists what is wrong in folders of files.
#![tactic(auto)]

ghost use Rattle.std.specs.Prelude.{◌≡◌};
ghost use Rattle.std.specs.Process.{exit_status};
ghost use Rattle.protols.specs.Status.{session_status};

use lsp_frame::{FrameReader, FromRead, ToWrite};
use lsp_session::{Config, Ended, ServeFault, serve};
use program_folder::FolderReader;
use program_options::options;
use program_options::words::Options;
use program_start::{
    Failure, check_files, configuration, explain, fail, failed, open_gate, read_words,
    status_of_check,
};
use std::io::{self, BufReader};
use std::marker::Send;
use std::process::ExitCode;
use std::sync::Wait;
use std::thread::Threads;

// Serves an editor on standard input and output with so many workers. The input is buffered, the output is written through.
fn serve_with<R: Threads + Wait + Clone + Send + Drop + Input + Print + AllocGlobal + 'static>(
    rt: &R,
    config: Config,
    workers: u8,
) -> Result<Ended, ServeFault> {
    let alloc = rt.alloc();
    let gate = open_gate(alloc)?;
    let Ok(input) = BufReader::new(alloc, rt.reader()) else {
        return Err(ServeFault::Memory);
    };
    let mut reader = FrameReader::new(alloc, FromRead::new(input));
    let mut writer = ToWrite::new(io::writer(rt));
    serve(
        rt,
        alloc,
        &mut reader,
        &mut writer,
        &gate,
        config,
        usize::from(workers),
    )
}

// Serves an editor, with the files of the folders that these options name.
fn serve_editor<
    'd,
    R: Threads
        + Wait
        + Clone
        + Send
        + Drop
        + FolderReader
        + Input
        + Print
        + Eprint
        + AllocGlobal
        + 'static,
>(rt: &R, options: &Options<'d>) -> Result<Ended, Failure<'d>> {
    let workers = options.workers;
    let config = configuration(rt, options.dirs.as_slice(), workers, options.reads_others)?;
    Ok(serve_with(rt, config, workers)?)
}

// The status that says how the session ended.
fn status_of(rt: &impl Eprint, ended: Result<Ended, Failure<'_>>) -> ExitCode
    ensures { exit_status result ≡ session_status ended.entry }
{
    match ended {
        Ok(Ended::Exit { after_shutdown }) => ExitCode::from(if after_shutdown { 0 } else { 1 }),
        Ok(Ended::InputEnd) => ExitCode::from(1),
        Ok(Ended::BadFrame(code)) => fail(rt, code),
        Err(failure) => failed(rt, &failure),
    }
}

fn main(rt: HostRuntime) -> ExitCode {
    let words = match read_words(&rt) {
        Ok(words) => words,
        Err(status) => return status,
    };
    match options(rt.alloc(), words.as_slice()) {
        Ok(asked) if asked.check => status_of_check(&rt, check_files(&rt, &asked)),
        Ok(asked) => status_of(&rt, serve_editor(&rt, &asked)),
        Err(error) => explain(&rt, &error),
    }
}
