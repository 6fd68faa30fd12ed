// Sectors by number.
ghost use Rattle.std.specs.Prelude.{◌≡◌, ◌≤◌, ◌<◌, if◌then◌else◌};
ghost use Rattle.model.specs.Sectors.{sectors, cells, beyond, has_beyond};

use model::{Measures, Side};

// How many sectors a hall has.
pub fn sectors(m: Measures) -> usize
    ensures { result ≡ sectors m }
{
    usize::from(m.columns) * usize::from(m.rows)
}

// The cells of a sector.
pub const SECTOR_CELLS: usize = 100;
// The most cells that a hall has.
pub const MOST_CELLS: usize = 100 * SECTOR_CELLS;

// How many cells a hall has.
pub fn cells(m: Measures) -> usize
    ensures { result ≡ cells m }
{
    sectors(m) * SECTOR_CELLS
}

// The sector beyond a side.
#[tactic(auto, unfolding(model::specs::Sectors::beyond))]
pub fn beyond(m: Measures, s: usize, side: Side) -> usize
    requires { s ≤ 10000 }
    ensures { result ≡ beyond m s side }
{
    let rows = usize::from(m.rows);
    match side {
        Side::North => s.saturating_sub(1),
        Side::East => s + rows,
        Side::South => s + 1,
        Side::West => s.saturating_sub(rows),
    }
}

// Whether there is a sector beyond a side.
#[tactic(auto, unfolding(model::specs::Sectors::has_beyond))]
fn has_beyond(m: Measures, s: usize, side: Side) -> bool
    requires { (1 ≤ m.rows) × (s ≤ 10000) }
    ensures { result ≡ has_beyond m s side }
{
    let rows = usize::from(m.rows);
    match side {
        Side::North => 0 < s % rows,
        Side::East => s + rows < sectors(m),
        Side::South => s % rows + 1 < rows,
        Side::West => rows <= s,
    }
}

// The sector beyond a side, or None at the end of the floor.
pub fn neighbour(m: Measures, s: usize, side: Side) -> Option<usize>
    requires { (1 ≤ m.rows) × (s ≤ 10000) }
    ensures { result ≡ (if has_beyond m s side then Some (beyond m s side) else None) }
{
    has_beyond(m, s, side).then(|| beyond(m, s, side))
}
