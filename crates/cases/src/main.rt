// Runs the recorded files of data/, which its arguments name, through the register's public calls, and prints what comes out.
#![tactic(auto)]

mod calls;
mod run;

ghost use Rattle.std.specs.Prelude.{◌≡◌, length};
ghost use Rattle.std.specs.Io.{ReadsAtMost};
ghost use Rattle.callfile.specs.CallFile.{out_size};

use crate::run::Given;
use casefile::reading;
use std::rt::Files;
use std::{env, fs, io};

// A file of cases or of lists has at most this many bytes.
const MOST_TEXT: usize = callfile::MOST_TEXT;

// What a file has.
#[derive(Clone, Copy)]
enum Kind {
    Calls,
    Lists,
    Cases(Given),
}

// Each argument's file, in order.
fn main(rt: HostRuntime) -> io::Result<()> {
    for name in env::args(&rt)?.skip(1) {
        run_argument(&rt, name.as_str())?;
    }
    Ok(())
}

// One file, and a line `unreadable` where it cannot be read to its end.
fn run_argument(rt: &(impl Files + Print), name: &str) -> io::Result<()> {
    if run_file(rt, name)? {
        Ok(())
    } else {
        rt.write_all(b"unreadable\n")
    }
}

// Reads more than a text may have.
fn run_file(rt: &(impl Files + Print), name: &str) -> io::Result<bool> {
    let mut space = zeros();
    let Ok(got) = read_file(rt, name, &mut space) else {
        return Ok(false);
    };
    run_text(rt, kind_of(name.as_bytes()), &space[..got])
}

// Reads a file until the space is full or the file ends, and answers how many bytes it put at the start of the space.
fn read_file(rt: &impl Files, name: &str, space: &mut [u8]) -> io::Result<usize>
    ensures { ReadsAtMost result space.new }
{
    let mut file = fs::open(rt, name)?;
    reading::read_full(&mut file, space)
}

// By the file's name: a digit begins that of a call file, `l` that of lists, and any other that of cases.
fn kind_of(name: &[u8]) -> Kind {
    match name {
        [] | [..=b'9', ..] => Kind::Calls,
        [b'l', ..] => Kind::Lists,
        [b'f' | b's' | b'p', ..] => Kind::Cases(Given::FileAndTable),
        [b't' | b'o' | b'm', ..] | [b'r', _, b't', ..] => Kind::Cases(Given::Table),
        _ => Kind::Cases(Given::Nothing),
    }
}

// Runs a text; false where it cannot be read to its end. What it takes of the stack is taken only where there is a text.
#[inline(never)]
fn run_text(rt: &impl Print, kind: Kind, text: &[u8]) -> io::Result<bool> {
    match kind {
        Kind::Calls => {
            print_calls(rt, text)?;
            Ok(true)
        }
        _ if text.len() > MOST_TEXT => Ok(false),
        Kind::Lists => lists::run_lines(rt, text),
        Kind::Cases(given) => run::run_lines(rt, text, given),
    }
}

// What the program prints for a call file.
fn print_calls(rt: &impl Print, text: &[u8]) -> io::Result<()> {
    let mut space = zeros();
    let n = callfile::run(text, &mut space).unwrap_or(0);
    rt.write_all(&space[..n])
}

// The `ensures` hides the bytes, so that no caller's proof computes them.
fn zeros() -> [u8; callfile::OUT_SIZE]
    ensures { out_size ≡ length result }
{
    [0; callfile::OUT_SIZE]
}
