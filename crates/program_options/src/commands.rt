// The commands of the program, with their options and what is said of them.

use clap::builder::ValueParser;
use clap::{Arg, ArgAction, Command};
use std::alloc::{AllocError, Global};

// What `protols --version` writes behind the program's name: its version, as `initialize` tells it, and the logic that it is proved in, by the last words
// of `rt version`, which kits that prove the same share.
const VERSION: &str = "1 (logic dac8208d650f15bf)";

// How the program is called. Each message on a wrong command line shows it.
const USAGE: &str = "\
protols serve [--root DIR] [--proto-path DIR]... [--read-others]
                     [--workers N] [--stdio] [--clientProcessId ID]
       protols check [--root DIR] [--proto-path DIR]... [--read-others]
                     [--workers N] [--format FORMAT] [--quiet] [FILE]...";

const SERVE_USAGE: &str = "\
protols serve [--root DIR] [--proto-path DIR]... [--read-others]
                     [--workers N] [--stdio] [--clientProcessId ID]";

const CHECK_USAGE: &str = "\
protols check [--root DIR] [--proto-path DIR]... [--read-others]
                     [--workers N] [--format FORMAT] [--quiet] [FILE]...";

// The names of the formats in which a check writes its lines.
const FORMATS: &[&str] = &["plain", "gnu", "github", "json", "sarif"];

const PROGRAM_HELP: &str = "\
Example, for an editor whose .proto files lie in /home/ann/protos:
  protols serve --stdio --root /home/ann/protos

Example, for a build that checks its .proto files, some of which import files
of /usr/include, as google/protobuf/any.proto:
  protols check --root protos --proto-path /usr/include

`protols serve --help` and `protols check --help` say what each option means.

Exit status:
  0  the editor sent `shutdown` and then `exit`, no error was found in the
     files, or this help was asked for
  1  the editor sent `exit` without `shutdown`, the input ended, or an error
     was found in the files
  2  the command line is wrong
  3  a folder can't be read (`protols: folder` on standard error), or the
     input shows a bad frame or something failed (`protols: fault` and its number)";

const SERVE_HELP: &str = "\
An editor starts this command and talks to it by the Language Server Protocol,
over standard input and output.

Example, for an editor whose .proto files lie in /home/ann/protos:
  protols serve --stdio --root /home/ann/protos

Example, where some of them import files of /usr/include too, as
google/protobuf/any.proto:
  protols serve --stdio --root /home/ann/protos --proto-path /usr/include";

const ROOT_HELP: &str = "\
The folder of the .proto files: they are read at the start, those of{n}\
its subfolders too, and imports name them by their paths below it.{n}\
DIR begins with `/`. Names that begin with `.` and symbolic links are{n}\
skipped [default: none; without `--proto-path` too, no file is read,{n}\
and paths begin at `/`]";

const PROTO_PATH_HELP: &str = "\
A further folder of .proto files, which are read in the same way. The{n}\
option may be given again. An import names a file of any folder: of{n}\
two files with the same path, the one of the folder that is given{n}\
first, `--root` before all. DIR begins with `/` [default: none]";

const CHECK_HELP: &str = "\
Each fault is a line on standard output, as
  shop/order.proto:7:3: 401 unresolved name
with the path below its folder, the line and the column from 1 (columns in
UTF-16 units), the number of the fault and what it says. The lines come by
path. The exit status is 1 where a fault is an error: all are but 317, a file
that isn't proto3. The last line on standard error says how many files were
checked, and how many errors they have.

Example, for a build whose .proto files lie in protos:
  protols check --root protos

Example, of two files alone, with lines to which an editor jumps:
  protols check --root protos --format gnu protos/a.proto protos/b.proto

Example, where some of them import files of /usr/include too, as
google/protobuf/any.proto:
  protols check --root protos --proto-path /usr/include";

const CHECK_ROOT_HELP: &str = "\
The folder of the .proto files: they are read with those of its{n}\
subfolders, and imports name them by their paths below it. Names{n}\
that begin with `.` and symbolic links are skipped [default: .{n}\
without `--proto-path`, else none]";

const CHECK_PROTO_PATH_HELP: &str = "\
A further folder of .proto files, which are read and checked in the{n}\
same way. The option may be given again. An import names a file of{n}\
any folder: of two files with the same path, the one of the folder{n}\
that is given first, `--root` before all [default: none]";

const FORMAT_HELP: &str = "\
How the lines are written. `plain`: path, line, column, number, words.{n}\
`gnu`: as compilers do, so that editors jump to them, with the path{n}\
below DIR as it is given, and `info` in the place of `error` for 317:{n}\
`protos/shop/order.proto:7:3: error: unresolved name [401]`. `github`:{n}\
workflow commands of GitHub's build service. `json`: an object a line.{n}\
`sarif`: one document of SARIF 2.1.0 [default: plain]";

const QUIET_HELP: &str = "\
Leave out the last line on standard error, and say nothing of a DIR{n}\
without .proto files";

const FILE_HELP: &str = "\
Write the lines of these files alone, and let the exit status speak{n}\
of them. The other files of the folders are read all the same, since{n}\
imports may name them. Each FILE has to be below one of the folders{n}\
[default: all files]";

const READ_OTHERS_HELP: &str = "\
Read files that aren't proto3 too, for what they declare: the files{n}\
that import them know their names then. Such a file still has 317,{n}\
and none of 201 to 318 beside it";

const WORKERS_HELP: &str = "\
How many threads work on the files, from 1 to 64. The output is the{n}\
same with any number [default: 4]";

const STDIO_HELP: &str = "\
Talk over standard input and output, which is the only way and the{n}\
default. Editors pass it; it changes nothing";

const CLIENT_HELP: &str = "\
The number of the editor's process; any text is taken. Editors pass{n}\
it; it changes nothing [default: none]";

// The option that names the first folder.
fn root_option<'a>(alloc: Global, help: &'a str) -> Arg<'a> {
    Arg::new(alloc, "root")
        .long("root")
        .value_name("DIR")
        .action(ArgAction::Set)
        .help(help)
}

// The option that names a further folder each time it is given.
fn proto_path_option<'a>(alloc: Global, help: &'a str) -> Arg<'a> {
    Arg::new(alloc, "proto-path")
        .long("proto-path")
        .value_name("DIR")
        .action(ArgAction::Append)
        .help(help)
}

// The option that has files read that aren't proto3.
fn read_others_option<'a>(alloc: Global) -> Arg<'a> {
    Arg::new(alloc, "read-others")
        .long("read-others")
        .action(ArgAction::SetTrue)
        .help(READ_OTHERS_HELP)
}

// The option that says how many workers there are.
fn workers_option<'a>(alloc: Global) -> Arg<'a> {
    Arg::new(alloc, "workers")
        .long("workers")
        .value_name("N")
        .value_parser(ValueParser::Unsigned(1, 64))
        .action(ArgAction::Set)
        .help(WORKERS_HELP)
}

// The option that says how lines are written.
fn format_option<'a>(alloc: Global) -> Arg<'a> {
    Arg::new(alloc, "format")
        .long("format")
        .value_name("FORMAT")
        .value_parser(ValueParser::Names(FORMATS))
        .hide_possible_values(true)
        .action(ArgAction::Set)
        .help(FORMAT_HELP)
}

// The option that leaves out the summary.
fn quiet_option<'a>(alloc: Global) -> Arg<'a> {
    Arg::new(alloc, "quiet")
        .long("quiet")
        .action(ArgAction::SetTrue)
        .help(QUIET_HELP)
}

// The files whose lines are written.
fn files_argument<'a>(alloc: Global) -> Arg<'a> {
    Arg::new(alloc, "file")
        .value_name("FILE")
        .num_args(0..)
        .action(ArgAction::Append)
        .help(FILE_HELP)
}

// The option that editors pass to say how they talk to the server.
fn stdio_option<'a>(alloc: Global) -> Arg<'a> {
    Arg::new(alloc, "stdio")
        .long("stdio")
        .action(ArgAction::SetTrue)
        .help(STDIO_HELP)
}

// The option by which editors name their process.
fn client_option<'a>(alloc: Global) -> Arg<'a> {
    Arg::new(alloc, "clientProcessId")
        .long("clientProcessId")
        .value_name("ID")
        .allow_hyphen_values(true)
        .action(ArgAction::Set)
        .help(CLIENT_HELP)
}

// `protols serve`, without its options.
fn plain_serve<'a>(alloc: Global) -> Command<'a> {
    Command::new(alloc, "serve")
        .about("Serve an editor over standard input and output")
        .override_usage(SERVE_USAGE)
        .after_help(SERVE_HELP)
}

// `protols serve`, with its options.
fn serve_command<'a>(alloc: Global) -> Result<Command<'a>, AllocError> {
    let serve = plain_serve(alloc).arg(root_option(alloc, ROOT_HELP))?;
    let serve = serve.arg(proto_path_option(alloc, PROTO_PATH_HELP))?;
    let serve = serve.arg(read_others_option(alloc))?;
    let serve = serve.arg(workers_option(alloc))?;
    let serve = serve.arg(stdio_option(alloc))?;
    serve.arg(client_option(alloc))
}

// `protols check`, without its options.
fn plain_check<'a>(alloc: Global) -> Command<'a> {
    Command::new(alloc, "check")
        .about("Check folders of .proto files and list what is wrong in them")
        .override_usage(CHECK_USAGE)
        .after_help(CHECK_HELP)
}

// `protols check`, with its options.
fn check_command<'a>(alloc: Global) -> Result<Command<'a>, AllocError> {
    let check = plain_check(alloc).arg(root_option(alloc, CHECK_ROOT_HELP))?;
    let check = check.arg(proto_path_option(alloc, CHECK_PROTO_PATH_HELP))?;
    let check = check.arg(read_others_option(alloc))?;
    let check = check.arg(workers_option(alloc))?;
    let check = check.arg(format_option(alloc))?;
    let check = check.arg(quiet_option(alloc))?;
    check.arg(files_argument(alloc))
}

// The program, without its commands.
fn plain_program<'a>(alloc: Global) -> Command<'a> {
    Command::new(alloc, "protols")
        .about("A language server and checker for Protocol Buffers, version 3 (proto3)")
        .version(VERSION)
        .override_usage(USAGE)
        .after_help(PROGRAM_HELP)
        .subcommand_required(true)
}

// The program, with the command `serve` too.
fn with_serve<'a>(alloc: Global, program: Command<'a>) -> Result<Command<'a>, AllocError> {
    program.subcommand(serve_command(alloc)?)
}

// The program, with the command `check` too.
fn with_check<'a>(alloc: Global, program: Command<'a>) -> Result<Command<'a>, AllocError> {
    program.subcommand(check_command(alloc)?)
}

// The program with its commands.
pub(crate) fn program<'a>(alloc: Global) -> Result<Command<'a>, AllocError> {
    let program = with_serve(alloc, plain_program(alloc))?;
    with_check(alloc, program)
}
