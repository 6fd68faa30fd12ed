// The eight directions, and the sectors that they lead to.
ghost use Rattle.std.specs.Prelude.{◌≡◌, ◌≤◌};
ghost use Rattle.std.specs.Bool.{then_some};
ghost use Rattle.model.specs.Directions.{compass, eastward, southward, shifted, on_axis, on_floor};

use model::{CompassDir, Measures};

// The directions in document 01's order.
const DIRECTIONS: [CompassDir; 8] = [
    CompassDir::North,
    CompassDir::East,
    CompassDir::South,
    CompassDir::West,
    CompassDir::NorthEast,
    CompassDir::SouthEast,
    CompassDir::SouthWest,
    CompassDir::NorthWest,
];

// Direction k; a number past the last stands for the last.
pub fn compass(k: usize) -> CompassDir
    ensures { result ≡ compass k }
{
    DIRECTIONS[k.min(7)]
}

// What one step does to the column and to the row, plus one: 0 back, 1 nothing, 2 on.
#[derive(Clone, Copy)]
pub struct Shift {
    pub east: usize,
    pub south: usize,
    ghost small: { (east ≤ 2) × (south ≤ 2) },
}

pub fn shift_of(d: CompassDir) -> Shift
    ensures { (result.east ≡ eastward d) × (result.south ≡ southward d) }
{
    let (east, south) = match d {
        CompassDir::North => (1, 0),
        CompassDir::East => (2, 1),
        CompassDir::South => (1, 2),
        CompassDir::West => (0, 1),
        CompassDir::NorthEast => (2, 0),
        CompassDir::SouthEast => (2, 2),
        CompassDir::SouthWest => (0, 2),
        CompassDir::NorthWest => (0, 0),
    };
    Shift { east, south }
}

// Whether place n - 1 lies on an axis so many places wide.
fn on_axis(n: usize, wide: usize) -> bool
    ensures { result ≡ on_axis n wide }
{
    1 <= n && n <= wide
}

// Whether a shift leads from sector s to a sector of the floor.
#[tactic(auto, unfolding(model::specs::Directions::on_floor))]
pub fn on_floor(m: Measures, s: usize, by: Shift) -> bool
    requires { (1 ≤ m.rows) × (s ≤ 10000) }
    ensures { result ≡ on_floor m s by.east by.south }
{
    let rows = usize::from(m.rows);
    let column = s / rows + by.east;
    on_axis(column, usize::from(m.columns)) && on_axis(s % rows + by.south, rows)
}

// The number that a shift gives from sector s: on the floor that of the sector to which it leads.
pub fn shifted(m: Measures, s: usize, by: Shift) -> usize
    requires { (1 ≤ m.rows) × (s ≤ 10000) }
    ensures { result ≡ shifted m s by.east by.south }
{
    let rows = usize::from(m.rows);
    (s / rows + by.east).saturating_sub(1) * rows + (s % rows + by.south).saturating_sub(1)
}

// The sector to which a shift leads from sector s, or None past the end of the floor.
pub fn towards(m: Measures, s: usize, by: Shift) -> Option<usize>
    requires { (1 ≤ m.rows) × (s ≤ 10000) }
    ensures { result ≡ then_some (on_floor m s by.east by.south) (shifted m s by.east by.south) }
{
    on_floor(m, s, by).then_some(shifted(m, s, by))
}
