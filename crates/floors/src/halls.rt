// Halls: a hall file is read into base costs and built in a store, costs are changed, windows are listed, and routes are found.
ghost use Rattle.std.specs.Prelude.{◌<◌};

use crate::input::read_bytes;
use crate::plans::print_measured;
use fields::sectors::cells;
use hall::build::build;
use hall::change::change;
use hall::windows::windows;
use hall_file::read::read_file;
use hall_route::route;
use model::{Measures, number_of};
use std::io;
use std::io::{Read, Write};

// The largest prime below 2 to the 32nd.
const PRIME: u64 = 4294967291;

fn mixed(sum: u32, byte: u8) -> u32
    ensures { result < 4294967291 }
{
    ((u64::from(sum) * 65537 + u64::from(byte)) % PRIME) as u32
}

// All bytes of a list as one number.
fn sum(bytes: &[u8]) -> u32 {
    bytes.iter().fold(0, |sum, byte| mixed(sum, *byte))
}

// The end of a line: the bytes that were lent, as one number.
fn print_lent<W: Write>(out: &mut W, bytes: &[u8]) {
    let _ = writeln!(out, ", lent {}", sum(bytes));
}

// How many base costs a file asks for, by its first two bytes.
fn room(file: &[u8]) -> usize {
    if file.len() < 2 {
        return 0;
    }
    cells(Measures {
        columns: file[0],
        rows: file[1],
        scale: 1,
    })
}

fn build_hall<W: Write>(out: &mut W, m: Measures, base: &[u8], store: &mut [u8]) {
    let answer = build(m.columns, m.rows, m.scale, base, store);
    let _ = write!(out, "build is {}", number_of(answer));
    print_lent(out, store);
}

fn read_hall<W: Write>(out: &mut W, file: &[u8], base: &mut [u8], store: &mut [u8]) {
    let answer = read_file(file, base);
    let _ = write!(out, "file of {} bytes", file.len());
    print_measured(out, answer);
    print_lent(out, base);
    if let Ok(m) = answer {
        build_hall(out, m, base, store);
    }
}

// An entry: the length of a hall file in two bytes, then the file. A file that breaks off has zeros for the bytes that are missing.
pub fn replay_file<R: Read, W: Write>(
    input: &mut R,
    out: &mut W,
    store: &mut [u8],
) -> io::Result<()> {
    let length = usize::from(u16::from_le_bytes(read_bytes(input)?));
    let mut space = [0u8; 65535];
    let file = &mut space[..length];
    let _ = input.read_exact(file);
    let mut base = [7u8; 10000];
    let n = room(file).min(10000);
    read_hall(out, file, &mut base[..n], store);
    Ok(())
}

// An entry: a floor number in two bytes, and a cost.
pub fn replay_change<R: Read, W: Write>(
    input: &mut R,
    out: &mut W,
    store: &mut [u8],
) -> io::Result<()> {
    let n = usize::from(u16::from_le_bytes(read_bytes(input)?));
    let [cost]: [u8; 1] = read_bytes(input)?;
    let answer = change(store, n, cost);
    let _ = write!(out, "change of {n} to {cost} is {}", number_of(answer));
    print_lent(out, store);
    Ok(())
}

// An entry: a sector in one byte. The list has room for twenty windows.
pub fn replay_windows<R: Read, W: Write>(
    input: &mut R,
    out: &mut W,
    store: &[u8],
) -> io::Result<()> {
    let [sector]: [u8; 1] = read_bytes(input)?;
    let mut list = [7u8; 60];
    let _ = match windows(store, usize::from(sector), &mut list) {
        Ok(count) => write!(out, "windows of {sector} gives {count}"),
        Err(refusal) => write!(out, "windows of {sector} is {}", refusal.number()),
    };
    print_lent(out, &list);
    Ok(())
}

// An entry: source and goal in two bytes each. The list has room for three steps.
pub fn replay_route<R: Read, W: Write>(input: &mut R, out: &mut W, store: &[u8]) -> io::Result<()> {
    let source = usize::from(u16::from_le_bytes(read_bytes(input)?));
    let goal = usize::from(u16::from_le_bytes(read_bytes(input)?));
    let mut list = [7u8; 18];
    let _ = write!(out, "route of {source} to {goal}");
    let _ = match route(store, source, goal, &mut list) {
        Ok(Some(r)) => write!(out, " gives {} {} {}", r.steps, r.leg, r.run),
        Ok(None) => write!(out, " is none"),
        Err(refusal) => write!(out, " is {}", refusal.number()),
    };
    print_lent(out, &list);
    Ok(())
}
