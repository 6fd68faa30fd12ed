// Moves between a cell and the portals of its sector.
ghost use Rattle.std.specs.Prelude.{◌≡◌, ◌*◌, ◌/◌, ◌%◌, ◌≤◌, ◌<◌, if◌then◌else◌};
ghost use Rattle.model.specs.Sectors.{sectors, cells, sector_of, place_of, costs_of};
ghost use Rattle.model.specs.Portals.{sector_portals};
ghost use Rattle.model.specs.Moves.{moves, moves_to, joined};
ghost use Rattle.moves.specs.Levels.{open_words, moves_or_none};
ghost use Rattle.store.specs.Stored.{stored};
ghost use Rattle.graph.specs.Near.{mid_of, sector_mids, near_by, portal_moves};

use crate::portals::{SECTOR_PORTALS, is_portal, midpoint};
use fields::sectors::SECTOR_CELLS;
use moves::open_cells::open_words;
use moves::spread::Spread;
use store::opened::Opened;

// Stands for the crossing of a number that is no portal's: no cell of a sector.
// A number and no Option: one test then finds it and bounds the cell. With Option a route over combs takes 2 % more instructions.
pub const NO_CROSSING: u8 = 100;

// The index of a portal's midpoint, or NO_CROSSING where the number is no portal's.
#[tactic(auto, using(crate::specs::Near::mid_some, crate::specs::Near::mid_none))]
fn mid_of(hall: &Opened<'_>, p: usize) -> u8
    ensures { result ≡ mid_of (stored hall.now) p }
{
    if is_portal(hall, p) {
        midpoint(hall, p)
    } else {
        NO_CROSSING
    }
}

// The midpoints of sector s by place.
#[tactic(auto, using(laws::specs::Table::tabling), unfolding(crate::specs::Near::sector_mids))]
pub fn sector_mids(hall: &Opened<'_>, s: usize) -> [u8; SECTOR_PORTALS]
    requires { s ≤ 100 }
    ensures { result ≡ sector_mids (stored hall.now) s }
{
    let mut mids = [NO_CROSSING; SECTOR_PORTALS];
    for (c, mid) in mids.iter_mut().enumerate() {
        *mid = mid_of(hall, s * SECTOR_PORTALS + c);
    }
    mids
}

// The moves to a midpoint, or None where there is no midpoint or no moves lead there.
#[tactic(auto, using(crate::specs::Near::answer_none, crate::specs::Near::answer_some))]
pub fn near_by(spread: &Spread, mid: u8) -> Option<u8>
    ensures { result ≡ moves_or_none (near_by spread.now mid) }
{
    if NO_CROSSING <= mid {
        None
    } else {
        spread.moves_at(usize::from(mid))
    }
}

// The open cells of sector s, in two words.
pub fn sector_words(hall: &Opened<'_>, s: usize) -> [u64; 2]
    requires { s < sectors hall.now.store.measures }
    ensures { result ≡ open_words (costs_of (stored hall.now).scaled s) }
{
    open_words(hall.store.sector(s))
}

// Spreads the moves from cell x, by the open cells of its sector.
pub fn moves_from(hall: &Opened<'_>, x: usize, words: [u64; 2], spread: &mut Spread)
    requires { (x < cells hall.now.store.measures) × (words ≡ open_words (costs_of (stored hall.now).scaled (sector_of x))) }
    ensures { spread.new ≡ moves (costs_of (stored hall.now).scaled (sector_of x)) (place_of x) }
{
    spread.fill(hall.store.sector(x / SECTOR_CELLS), words, x % SECTOR_CELLS);
}

// The fewest moves from one cell to another, or None where they are not joined.
#[tactic(auto, using(crate::specs::Near::answer_other, crate::specs::Near::answer_same))]
pub fn moves_to(hall: &Opened<'_>, x: usize, y: usize) -> Option<u8>
    requires { x < cells hall.now.store.measures }
    ensures { result ≡ (if joined (stored hall.now).scaled x y then Some (moves_to (stored hall.now).scaled x y) else None) }
{
    if x / SECTOR_CELLS != y / SECTOR_CELLS {
        return None;
    }
    let mut spread = Spread::new();
    moves_from(hall, x, sector_words(hall, x / SECTOR_CELLS), &mut spread);
    spread.moves_at(y % SECTOR_CELLS)
}

// The moves from cell x to the portals of its sector by place, and None where there are none or the place has no portal.
pub fn portal_moves(hall: &Opened<'_>, x: usize) -> [Option<u8>; SECTOR_PORTALS]
    requires { x < cells hall.now.store.measures }
    ensures { result ≡ portal_moves (stored hall.now) x }
{
    let s = x / SECTOR_CELLS;
    let mut spread = Spread::new();
    moves_from(hall, x, sector_words(hall, s), &mut spread);
    let mut near = [None; SECTOR_PORTALS];
    for (c, mid) in sector_mids(hall, s).iter().enumerate() {
        near[c] = near_by(&spread, *mid);
    }
    near
}
