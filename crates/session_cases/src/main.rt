//! Answers the cases of standard input, and prints the answers: line N of the output is the answer to line N of the input
//! (../library_cases/README.md). Frames, cores and gated sessions are run here, all else by `library_cases`.
#![tactic(auto)]

mod configs;
mod cores;
mod devices;
mod frames;
mod gates;
mod settings;

use library_cases::{Line, Names, answer_call, field};
use std::alloc::AllocError;
use std::io::{self, BufRead, BufReader};
use std::marker::Send;
use std::sync::Wait;
use std::thread::Threads;

// Writes the answer to a call on the fields of a line.
fn answer<R: Threads + Wait + Clone + Send + Drop + 'static>(
    rt: &R,
    names: &Names,
    line: &mut Line,
    given: &str,
) -> Result<(), AllocError> {
    match field(given, 0) {
        "frames" => frames::read_all(names, line, given),
        "write" => frames::write_all(names.alloc(), line, given),
        "fails once" => Ok(devices::fails_once(names.alloc(), line, field(given, 1))),
        "run" => cores::answer_run(names, line, given),
        "core" => cores::answer_core(rt, names, line, given, 1),
        "core from" => cores::answer_core(rt, names, line, given, 2),
        "meet" => gates::meet(rt, names.alloc(), line, given),
        "hold" => gates::hold(rt, names.alloc(), line, given),
        "hold until written" => gates::hold_until_written(rt, names.alloc(), line, given),
        "meet in check" => gates::meet_in_check(rt, names.alloc(), line, given),
        _ => answer_call(rt, names.alloc(), line, given),
    }
}

fn write_answer<R: Threads + Wait + Clone + Send + Drop + 'static>(
    rt: &R,
    names: &mut Names,
    line: &mut Line,
    given: &str,
) -> Result<(), AllocError> {
    match names.asked(line, given)? {
        None => Ok(()),
        Some(asked) => answer(rt, names, line, asked.as_str()),
    }
}

fn print_answer<R: Threads + Wait + Clone + Send + Drop + Print + 'static>(
    rt: &R,
    names: &mut Names,
    given: &str,
) -> io::Result<()> {
    let mut line = Line::new(names.alloc());
    if write_answer(rt, names, &mut line, given).is_err() {
        line.refuse();
    }
    let answer = line.as_str();
    println!(rt; "{answer}")
}

fn main(rt: HostRuntime) -> io::Result<()> {
    let alloc = rt.alloc();
    let mut names = Names::new(alloc);
    for given in BufReader::new(alloc, rt.reader())?.lines(alloc) {
        print_answer(&rt, &mut names, given?.as_str())?;
    }
    Ok(())
}
