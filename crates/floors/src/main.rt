// Replays the list that the oracle wrote, standard input, one line for each entry: the floor of document 01 that is not starred, then
// what the Rust was asked. An entry is its kind in one byte and what is asked. Numbers go low byte first.
#![tactic(auto)]

mod halls;
mod input;
mod plans;

use std::io;
use std::io::{Read, Write};

// An entry of the list; false at the end of it. What is asked of a hall is asked of the store.
fn replay<R: Read, W: Write>(input: &mut R, out: &mut W, store: &mut [u8]) -> io::Result<bool> {
    let mut kind = [0u8; 1];
    if input.read(&mut kind)? == 0 {
        return Ok(false);
    }
    match kind[0] {
        b'p' => plans::replay(input, out)?,
        b'f' => halls::replay_file(input, out, store)?,
        b'c' => halls::replay_change(input, out, store)?,
        b'w' => halls::replay_windows(input, out, store)?,
        b'r' => halls::replay_route(input, out, store)?,
        _ => return Ok(false),
    }
    Ok(true)
}

// A proved loop has to end, so its turns are counted: of a longer list the first million entries are replayed.
fn replay_all<R: Read, W: Write>(input: &mut R, out: &mut W) -> io::Result<()> {
    let mut store = [0u8; 20804];
    for _ in 0..1000000 {
        if !replay(input, out, &mut store)? {
            break;
        }
    }
    Ok(())
}

// A list that breaks off ends the replay, and a line that cannot be written is passed over: what was printed is compared with what the oracle wrote.
fn main(rt: HostRuntime) {
    let mut input = rt.stdin();
    let mut out = io::writer(&rt);
    let _ = replay_all(&mut input, &mut out);
}
