// 01, item 6: the f32 values of a plan, and the whole numbers next to a quotient of them.
#![tactic(auto)]

ghost use Rattle.std.specs.Prelude.{◌≡◌, not, ◌&&◌, min};
ghost use Rattle.std.specs.Float.Ieee.Scale.{finite};
ghost use Rattle.model.specs.Measuring.{cut_down, round_up};

use model::Dimensions;

// Whether a value is not finite.
#[tactic(auto, using(crate::proofs::Finite::finite_is))]
pub fn not_finite(d: Dimensions) -> bool
    ensures { result ≡ not (finite d.size_x && finite d.size_y && finite d.unit && finite d.radius) }
{
    !(d.size_x.is_finite() && d.size_y.is_finite() && d.unit.is_finite() && d.radius.is_finite())
}

// 2 to the 23rd: the weight of the first of an f32's 24 digits, and among its bits that of the exponent's field.
const FIRST_DIGIT: u32 = 8388608;

// A number cut down and rounded up to a whole one. 16 stands for 16 and more.
#[derive(Clone, Copy)]
pub struct Whole {
    pub down: u8,
    pub up: u8,
}

// The whole numbers next to q, from its bits. A field of 127 is a number from 1 to below 2, and each further one doubles it.
pub fn whole_near(q: f32) -> Whole
    ensures { (result.down ≡ min (cut_down q) 16) × (result.up ≡ min (round_up q) 16) }
{
    if !(0.0 < q) {
        return Whole { down: 0, up: 0 };
    }
    let bits = q.to_bits();
    let field = bits / FIRST_DIGIT;
    if field < 127 {
        return Whole { down: 0, up: 1 };
    }
    if 130 < field {
        return Whole { down: 16, up: 16 };
    }
    let digits = FIRST_DIGIT + bits % FIRST_DIGIT;
    let part = FIRST_DIGIT >> (field - 127);
    Whole {
        down: (digits / part) as u8,
        up: digits.div_ceil(part) as u8,
    }
}
