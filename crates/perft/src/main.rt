//! The program `perft`: counts the leaf nodes of a position's move tree at a given depth, for each legal move and in
//! total.
#![tactic(auto)]

mod count;
mod draughts;
mod fault;
mod game;
mod shogi;
mod words;

use crate::count::print_counts;
use crate::draughts::DraughtsTree;
use crate::fault::PerftFault;
use crate::shogi::ShogiTree;
use crate::words::{PerftOptions, PerftUsage, StartPosition, read_words};
use std::alloc::AllocError;
use std::io::Write;
use std::process::ExitCode;

const USAGE: &str = "usage: perft draughts|shogi DEPTH [POSITION]";

const DONE: u8 = 0;

const BAD_WORDS: u8 = 2;

const FAULT: u8 = 3;

// Prints the reason for a failure and returns the exit status.
fn stop<E: Write>(err: &mut E, text: &str, status: u8) -> u8 {
    let _ = writeln!(err, "{text}");
    status
}

// The command-line arguments without the program's name; `None` if out of memory.
fn given_words(rt: &HostRuntime) -> Option<Vec<String>> {
    let words = match std::env::args(rt) {
        Ok(words) => words,
        Err(_) => return None,
    };
    match words.skip(1).collect(rt.alloc()) {
        Ok(words) => Some(words),
        Err(_) => None,
    }
}

fn texts<'a>(rt: &HostRuntime, words: &'a [String]) -> Result<Vec<&'a str>, AllocError> {
    words.iter().map(|word| word.as_str()).collect(rt.alloc())
}

// Prints the counts that the command line requests.
fn print_asked<W: Write>(
    rt: &HostRuntime,
    asked: &PerftOptions,
    out: &mut W,
) -> Result<(), PerftFault> {
    match &asked.start {
        StartPosition::Draughts(position) => {
            print_counts::<DraughtsTree, W>(rt.alloc(), position, asked.depth, out)
        }
        StartPosition::Shogi(position) => print_counts::<ShogiTree, W>(
            rt.alloc(),
            position,
            asked.depth,
            out,
        ),
    }
}

// Parses the command line, prints the counts and returns the exit status.
fn status_of(rt: &HostRuntime, words: &[String]) -> u8 {
    let mut err = rt.stderr();
    let Ok(words) = texts(rt, words) else {
        return stop(&mut err, "out of memory", FAULT);
    };
    let asked = match read_words(rt.alloc(), words.as_slice()) {
        Ok(asked) => asked,
        Err(PerftUsage::Usage) => return stop(&mut err, USAGE, BAD_WORDS),
        Err(PerftUsage::Memory) => return stop(&mut err, "out of memory", FAULT),
    };
    match print_asked(rt, &asked, &mut rt.stdout()) {
        Ok(()) => DONE,
        Err(PerftFault::TooMany) => stop(&mut err, "too many lines", FAULT),
        Err(PerftFault::Memory) => stop(&mut err, "out of memory", FAULT),
        Err(PerftFault::Output) => stop(&mut err, "the output fails", FAULT),
    }
}

fn main(rt: HostRuntime) -> ExitCode {
    let status = match given_words(&rt) {
        Some(words) => status_of(&rt, &words),
        None => stop(&mut rt.stderr(), "out of memory", FAULT),
    };
    ExitCode::from(status)
}
