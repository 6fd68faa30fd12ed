// Plans.
use crate::input::read_bytes;
use hall_plan::plan;
use model::{Dimensions, Measures, Refusal};
use std::io::{Read, Write};
use std::num::nearest_u32_to_f32;
use std::{fmt, io};

// A value as two numbers, of four bytes each, to be divided: 0 over 0 is a NaN, 1 over 0 infinite.
#[derive(Clone, Copy)]
struct Quotient {
    over: u32,
    under: u32,
}

impl Quotient {
    fn read<R: Read>(input: &mut R) -> io::Result<Quotient> {
        Ok(Quotient {
            over: u32::from_le_bytes(read_bytes(input)?),
            under: u32::from_le_bytes(read_bytes(input)?),
        })
    }

    fn value(self) -> f32 {
        nearest_u32_to_f32(self.over) / nearest_u32_to_f32(self.under)
    }
}

impl fmt::Display for Quotient {
    fn fmt<W: fmt::Write>(&self, f: &mut fmt::Formatter<W>) -> fmt::Result {
        write!(f, "{}/{}", self.over, self.under)
    }
}

// Columns, rows and scale, or the number of a refusal.
pub fn print_measured<W: Write>(out: &mut W, answer: Result<Measures, Refusal>) {
    let _ = match answer {
        Ok(m) => write!(out, " gives {} {} {}", m.columns, m.rows, m.scale),
        Err(refusal) => write!(out, " is {}", refusal.number()),
    };
}

pub fn replay<R: Read, W: Write>(input: &mut R, out: &mut W) -> io::Result<()> {
    let size_x = Quotient::read(input)?;
    let size_y = Quotient::read(input)?;
    let unit = Quotient::read(input)?;
    let radius = Quotient::read(input)?;
    let _ = write!(out, "plan {size_x} {size_y} {unit} {radius}");
    let d = Dimensions {
        size_x: size_x.value(),
        size_y: size_y.value(),
        unit: unit.value(),
        radius: radius.value(),
    };
    print_measured(out, plan(d));
    let _ = out.write_all(b"\n");
    Ok(())
}
