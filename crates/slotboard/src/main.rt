// The slot board as a program: reads a script of calls, one a line, performs each on one board from new,
// and prints each line and what the board answered. The board itself is in the library `board`.
#![tactic(auto)]

mod answer;
mod fault;
mod parse;
mod slots;

use answer::Answer;
use anyhow::anyhow;
use board::Board;
use fault::Fault;
use parse::parse_line;
use std::fs::File;
use std::io::{BufRead, BufReader, Write};
use std::{env, io};

fn main(rt: HostRuntime) -> anyhow::Result<()> {
    run(&rt)
}

// Plays the script in the file that is named, or on standard input.
fn run(rt: &HostRuntime) -> anyhow::Result<()> {
    let mut args = env::args(rt)?;
    let _ = args.next();
    match (args.next(), args.next()) {
        (None, _) => play(rt, BufReader::new(rt.alloc(), rt.stdin())?)?,
        (Some(path), None) => play(rt, BufReader::new(rt.alloc(), File::open(rt, path)?)?)?,
        (Some(_), Some(_)) => return Err(anyhow!("usage: slotboard [SCRIPT]")),
    }
    Ok(())
}

fn play<R: BufRead + Drop>(rt: &HostRuntime, script: R) -> io::Result<()> {
    let mut board = Board::new();
    let mut result = Ok(());
    for line in script.split(rt.alloc(), b'\n') {
        let line = match line {
            Ok(line) => line,
            Err(error) => {
                result = Err(error);
                break;
            }
        };
        let (next, printed) = play_line(rt, board, without_return(line.as_slice()));
        board = next;
        if printed.is_err() {
            result = printed;
            break;
        }
    }
    // A trial that still stands ends with the script.
    let _ = board.settle();
    result
}

// A line without the carriage return of a script that ends its lines with both.
fn without_return(line: &[u8]) -> &[u8] {
    match line {
        [head @ .., b'\r'] => head,
        _ => line,
    }
}

// Performs the call of a line, and prints the line and what the board answered or what is wrong with the line; nothing for a
// line that is passed over. The board comes back whatever became of the printing, since no board may be let go.
fn play_line(rt: &HostRuntime, board: Board, line: &[u8]) -> (Board, io::Result<()>) {
    match parse_line(line) {
        Ok(None) => (board, Ok(())),
        Ok(Some(call)) => {
            let (next, reply) = board.perform(call);
            (next, print_answer(rt, line, Answer { call, reply }))
        }
        Err(fault) => (board, print_fault(rt, line, fault)),
    }
}

fn print_answer(rt: &HostRuntime, line: &[u8], answer: Answer) -> io::Result<()> {
    print_line(rt, line)?;
    println!(rt; "{answer}")
}

fn print_fault(rt: &HostRuntime, line: &[u8], fault: Fault<'_>) -> io::Result<()> {
    print_line(rt, line)?;
    println!(rt; "error: {fault}")
}

// The line as it was read.
fn print_line(rt: &HostRuntime, line: &[u8]) -> io::Result<()> {
    let mut out = rt.stdout();
    out.write_all(b"> ")?;
    out.write_all(line)?;
    out.write_all(b"\n")
}
