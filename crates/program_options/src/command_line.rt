// Reads the words of the command line.
ghost use Rattle.std.specs.Prelude.{◌≡◌, ◌≤◌, IfOk, IfSome, IsTrue, All, true, false};
ghost use Rattle.program_options.specs.Path as spec;
ghost use Rattle.program_options.specs.declared.command_line.Refusal.TheVariants as refusal;

use crate::commands::program;
use crate::words::Options;
use clap::error::ErrorKind;
use clap::{ArgMatches, Command, Error};
use std::alloc::{AllocError, Global};

// How many workers there are where the command line gives no number.
const DEFAULT_WORKERS: u8 = 4;

// How the lines of a check are written where the command line says nothing of it.
const DEFAULT_FORMAT: &str = "plain";

// Why words are refused that the commands and their options allow.
#[derive(Clone, Copy, Debug, PartialEq, Eq)]
enum Refusal {
    // There is no command.
    NoCommand,
    // A folder of `serve` has a path that doesn't begin with `/`.
    RelativeFolder,
    // The number of workers isn't written in digits alone.
    SignedNumber,
    // Memory was refused.
    Memory,
}

impl From<AllocError> for Refusal {
    ghost from_gives = { λ _ e. e ≡ refusal.Memory };

    fn from(_error: AllocError) -> Refusal {
        Refusal::Memory
    }
}

// The path begins at the top of the file system.
fn is_absolute(path: &str) -> bool
    ensures { result ≡ spec.is_absolute path.now }
{
    path.as_bytes().starts_with(b"/")
}

// So do all of these.
fn are_absolute(paths: &[&str]) -> bool
    ensures { IsTrue result → All (λ path. spec.is_absolute path.now ≡ true) paths.now }
{
    paths.iter().all(|path| is_absolute(path))
}

// Adds the words that an option gives, in their order.
fn add_given<'a>(
    words: &mut Vec<&'a str>,
    given: &ArgMatches<'a>,
    option: &str,
) -> Result<(), AllocError> {
    for word in given.get_strs(option).unwrap_or(&[]) {
        words.push(*word)?;
    }
    Ok(())
}

// The folders that are given: that of `--root`, then those of `--proto-path`.
fn given_dirs<'a>(alloc: Global, given: &ArgMatches<'a>) -> Result<Vec<&'a str>, AllocError> {
    let mut dirs = Vec::new(alloc);
    add_given(&mut dirs, given, "root")?;
    add_given(&mut dirs, given, "proto-path")?;
    Ok(dirs)
}

// The folders that a command takes. Those of `serve` have to be told by their whole paths.
fn taken_dirs<'a>(
    alloc: Global,
    check: bool,
    given: &ArgMatches<'a>,
) -> Result<Vec<&'a str>, Refusal>
    ensures { IfOk result (λ dirs. check ≡ false → All (λ dir. spec.is_absolute dir.now ≡ true) dirs.items) }
{
    let dirs = given_dirs(alloc, given)?;
    if check || are_absolute(&dirs) {
        Ok(dirs)
    } else {
        Err(Refusal::RelativeFolder)
    }
}

// Whether the number of workers is written in digits alone, if one is given.
fn has_plain_number(given: &ArgMatches<'_>) -> bool {
    match given.get_str("workers") {
        Some(number) => number.as_bytes().iter().all(|byte| byte.is_ascii_digit()),
        None => true,
    }
}

// How many workers are asked for. The option takes no number but one from 1 to 64.
fn given_workers(given: &ArgMatches<'_>) -> Result<u8, Refusal>
    ensures { IfOk result (λ workers. (1 ≤ workers) × (workers ≤ 64)) }
{
    if !has_plain_number(given) {
        return Err(Refusal::SignedNumber);
    }
    Ok(match given.get_one::<u8>("workers") {
        Some(workers) => workers.clamp(1, 64),
        None => DEFAULT_WORKERS,
    })
}

// The files that a check is given.
fn given_files<'a>(
    alloc: Global,
    check: bool,
    given: &ArgMatches<'a>,
) -> Result<Vec<&'a str>, AllocError> {
    let mut files = Vec::new(alloc);
    if check {
        add_given(&mut files, given, "file")?;
    }
    Ok(files)
}

// How the lines of a check are written.
fn given_format<'a>(check: bool, given: &ArgMatches<'a>) -> &'a str {
    if check {
        given.get_str("format").unwrap_or(DEFAULT_FORMAT)
    } else {
        DEFAULT_FORMAT
    }
}

// What a command with these options is asked for.
fn options_of<'a>(
    alloc: Global,
    command: &str,
    given: &ArgMatches<'a>,
) -> Result<Options<'a>, Refusal>
    ensures workers { IfOk result (λ options. (1 ≤ options.workers) × (options.workers ≤ 64)) }
    ensures absolute { IfOk result (λ options. options.check ≡ false → All (λ dir. spec.is_absolute dir.now ≡ true) options.dirs.items) }
{
    let check = command == "check";
    let dirs = taken_dirs(alloc, check, given)?;
    let workers = given_workers(given)?;
    let files = given_files(alloc, check, given)?;
    Ok(Options {
        check,
        dirs,
        reads_others: given.get_flag("read-others"),
        workers,
        format: given_format(check, given),
        quiet: check && given.get_flag("quiet"),
        files,
    })
}

// What the matches of the whole command line ask for.
fn asked<'a>(alloc: Global, matches: &ArgMatches<'a>) -> Result<Options<'a>, Refusal>
    ensures workers { IfOk result (λ options. (1 ≤ options.workers) × (options.workers ≤ 64)) }
    ensures absolute { IfOk result (λ options. options.check ≡ false → All (λ dir. spec.is_absolute dir.now ≡ true) options.dirs.items) }
{
    match matches.subcommand() {
        Some((command, given)) => options_of(alloc, command, given),
        None => Err(Refusal::NoCommand),
    }
}

// What the words ask for.
fn read_words<'a>(
    alloc: Global,
    program: &mut Command<'a>,
    words: &'a [String],
) -> Result<Result<Options<'a>, Refusal>, Error>
    ensures workers { IfOk result (λ found. IfOk found (λ options. (1 ≤ options.workers) × (options.workers ≤ 64))) }
    ensures absolute { IfOk result (λ found. IfOk found (λ options. options.check ≡ false → All (λ dir. spec.is_absolute dir.now ≡ true) options.dirs.items)) }
{
    let matches = program.try_get_matches_from_mut(words)?;
    Ok(asked(alloc, &matches))
}

// A refusal as an error of the program.
fn error_of(program: &mut Command<'_>, refusal: Refusal) -> Result<Error, AllocError> {
    match refusal {
        Refusal::Memory => Err(AllocError),
        Refusal::NoCommand => program.error(ErrorKind::MissingSubcommand, "a command is missing"),
        Refusal::RelativeFolder => program.error(
            ErrorKind::ValueValidation,
            "each folder of '--root <DIR>' and '--proto-path <DIR>' has to begin with '/'",
        ),
        Refusal::SignedNumber => program.error(
            ErrorKind::ValueValidation,
            "the number of '--workers <N>' has to be written in digits alone",
        ),
    }
}

/// What the words ask for, the program's name first. The commands are `serve` and `check`.
///
/// A wrong command line is an error whose text says what to do, and so is a call for help, whose text is the help:
/// `exit_code` and `use_stderr` of the error tell them apart. Each option but `--proto-path` may be given once.
pub fn options<'a>(alloc: Global, words: &'a [String]) -> Result<Options<'a>, Error>
    ensures workers { IfOk result (λ options. (1 ≤ options.workers) × (options.workers ≤ 64)) }
    // The folders of `serve` are told by their whole paths.
    ensures absolute { IfOk result (λ options. options.check ≡ false → All (λ dir. spec.is_absolute dir.now ≡ true) options.dirs.items) }
{
    let mut program = program(alloc)?;
    match read_words(alloc, &mut program, words)? {
        Ok(options) => Ok(options),
        Err(refusal) => Err(error_of(&mut program, refusal)?),
    }
}
