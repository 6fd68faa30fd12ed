// The sides of a sector.
ghost use Rattle.std.specs.Prelude.{◌≡◌};
ghost use Rattle.model.specs.Cells.{opposite};

use model::Side;

// The sides in the order of their numbers; a side's number is `side as usize`.
// A static: a const is written down anew at each index, which costs a route 1 % more instructions.
pub static SIDES: [Side; 4] = [Side::North, Side::East, Side::South, Side::West];

pub fn opposite(side: Side) -> Side
    ensures { result ≡ opposite side }
{
    match side {
        Side::North => Side::South,
        Side::East => Side::West,
        Side::South => Side::North,
        Side::West => Side::East,
    }
}
