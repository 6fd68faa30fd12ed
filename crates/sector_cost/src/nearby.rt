// The sector that a change is in, place 0, and its up to eight surrounding ones, places 1 to 8 in the order of the directions.
ghost use Rattle.std.specs.Prelude.{◌≡◌, ◌≤◌};
ghost use Rattle.std.specs.Bool.{then_some};
ghost use Rattle.model.specs.Change.{nearby, is_there, is_nearby};

use fields::directions::{compass, on_floor, shift_of, shifted, towards};
use model::Measures;

// How many places there are.
pub const PLACES: usize = 9;

// The number at place k: that of the sector there, if there is one.
pub fn nearby(m: Measures, t: usize, k: usize) -> usize
    requires { (1 ≤ m.rows) × (t ≤ 10000) }
    ensures { result ≡ nearby m t k }
{
    if k == 0 {
        return t;
    }
    shifted(m, t, shift_of(compass(k - 1)))
}

// Whether there is a sector at place k.
pub fn is_there(m: Measures, t: usize, k: usize) -> bool
    requires { (1 ≤ m.rows) × (t ≤ 10000) }
    ensures { result ≡ is_there m t k }
{
    if k == 0 {
        return true;
    }
    on_floor(m, t, shift_of(compass(k - 1)))
}

// The sector at place k, or None where there is none.
pub fn nearby_sector(m: Measures, t: usize, k: usize) -> Option<usize>
    requires { (1 ≤ m.rows) × (t ≤ 10000) }
    ensures { result ≡ then_some (is_there m t k) (nearby m t k) }
{
    if k == 0 {
        return Some(t);
    }
    towards(m, t, shift_of(compass(k - 1)))
}

// Whether sector s is one of the nine.
pub fn is_nearby(m: Measures, t: usize, s: usize) -> bool
    requires { (1 ≤ m.rows) × (t ≤ 10000) }
    ensures { result ≡ is_nearby m t s }
{
    (0..PLACES).any(|k| nearby_sector(m, t, k) == Some(s))
}
