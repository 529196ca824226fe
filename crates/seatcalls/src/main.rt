// Runs the call file on standard input and writes what it prints to standard output. Where the one
// can't be read to its end, which counts as an empty input, or the other can't be written, it says so
// on standard error.
#![tactic(auto)]

use casefile::reading;
use std::fmt::InlineText;
use std::io;

// Reads one byte more than a call file may have.
fn main(rt: HostRuntime) {
    let mut space = [0u8; callfile::MOST_TEXT + 1];
    match reading::read_full(&mut rt.stdin(), &mut space) {
        Ok(got) => run_text(&rt, &space[..got]),
        Err(error) => {
            fail(&rt, "standard input", &error);
            run_text(&rt, &[]);
        }
    }
}

// Runs a text and writes what it prints.
fn run_text(rt: &(impl Print + Eprint), text: &[u8]) {
    let mut out = [0u8; callfile::OUT_SIZE];
    let n = callfile::run(text, &mut out).unwrap_or(0);
    if let Err(error) = rt.write_all(&out[..n]) {
        fail(rt, "standard output", &error);
    }
}

// Says on standard error what failed, and why.
fn fail(rt: &impl Eprint, what: &str, error: &io::Error) {
    let text = InlineText::<256>::of(error);
    let why = words_of(text.as_str());
    let _ = eprintln!(rt; "seatcalls: {what}: {why}");
}

// The system's words of an error's text, without the number that std puts after them.
fn words_of(text: &str) -> &str {
    text.split_once(" (os error ")
        .map_or(text, |(words, _)| words)
}
