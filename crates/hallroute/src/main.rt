// The program of document 01: a hall file and pairs of source and goal on standard input, a line for each pair on standard output.
// An input that cannot be read, or a line that cannot be written, is said on standard error, and is the last thing done.
#![tactic(auto)]

ghost use Rattle.std.specs.Prelude.{◌≡◌, ◌++◌, ◌<◌, ◌≤◌, length, OnOk};
ghost use Rattle.std.specs.Io.KnownBytes.{Appends};
ghost use Rattle.model.specs.Numbers.{number};
ghost use Rattle.model.specs.Hallroute.{text, decimal, pair_lines, file_lines, hallroute};

mod lines;
mod opening;
mod stdin;

use arrayvec::ArrayString;
use lines::{push_bytes, push_refused};
use model::Refusal;
use opening::{file_size, open_hall};
use std::io;
use std::io::Write;
use stdin::read_input;

fn print_refused<W: Write>(out: &mut W, refusal: Refusal) -> io::Result<()>
    ensures { OnOk result (Appends (W.contents out.old) (W.contents out.new) (text "hall refused " ++ (decimal (number refusal) ++ text "\n"))) }
{
    let mut line = ArrayString::<20>::new();
    push_refused(&mut line, refusal);
    out.write_all(line.as_str().as_bytes())
}

// Prints the line of a pair; the list holds 1,001 steps.
fn print_pair<W: Write>(
    out: &mut W,
    st: &[u8],
    pair: &[u8],
    steps: &mut [u8; 6006],
    line: &mut ArrayString<20100>,
) -> io::Result<()>
    requires { (0 < length pair.now) × (length pair.now ≤ 4) }
    ensures { OnOk result (Appends (W.contents out.old) (W.contents out.new) (pair_lines st.now pair.now)) }
{
    push_bytes(st, pair, steps, line);
    out.write_all(line.as_str().as_bytes())
}

// Prints the lines of all pairs, four bytes a pair.
fn print_pairs<W: Write>(out: &mut W, st: &[u8], pairs: &[u8]) -> io::Result<()>
    ensures { OnOk result (Appends (W.contents out.old) (W.contents out.new) (pair_lines st.now pairs.now)) }
{
    let mut steps = [0u8; 6006];
    let mut line = ArrayString::<20100>::new();
    for pair in pairs.chunks(4) {
        print_pair(out, st, pair, &mut steps, &mut line)?;
    }
    Ok(())
}

fn print_hall<W: Write>(out: &mut W, file: &[u8], pairs: &[u8]) -> io::Result<()>
    ensures { OnOk result (Appends (W.contents out.old) (W.contents out.new) (file_lines file.now pairs.now)) }
{
    let mut store = [0u8; 20804];
    match open_hall(file, &mut store) {
        Ok(()) => print_pairs(out, &store, pairs),
        Err(refusal) => print_refused(out, refusal),
    }
}

// What a writer that says what it holds has more after it, if nothing failed, is what the definition gives for the input.
fn print_lines<W: Write>(out: &mut W, input: &[u8]) -> io::Result<()>
    ensures { OnOk result (Appends (W.contents out.old) (W.contents out.new) (hallroute input.now)) }
{
    if 65536 < input.len() {
        return out.write_all(b"too long\n");
    }
    let (file, pairs) = input.split_at(file_size(input));
    print_hall(out, file, pairs)
}

// One byte more than the most is asked for, so that a longer input shows.
fn main(rt: HostRuntime) {
    let mut input = [0u8; 65537];
    let mut stdin = rt.stdin();
    let Ok(n) = read_input(&mut stdin, &mut input) else {
        let _ = eprintln!(rt; "hallroute: standard input cannot be read");
        return;
    };
    let mut out = io::writer(&rt);
    if print_lines(&mut out, &input[..n]).is_err() {
        let _ = eprintln!(rt; "hallroute: standard output cannot be written");
    }
}
