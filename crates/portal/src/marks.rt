// The marks of the sides, from the costs.
ghost use Rattle.std.specs.Prelude.{◌≡◌, ◌≤◌};
ghost use Rattle.model.specs.Windows.{bits, mark_of};
ghost use Rattle.portal.specs.Marks.{open_pair, open_between};

use crate::border::{boundary_field_cells, cell_index};
use fields::bits::mark_of;
use fields::costs::open_at;
use fields::sectors::{SECTOR_CELLS, neighbour};
use model::{BorderCells, FieldCell, Measures, Side};

// Whether a place is open: its cell in sector s, and the one that it faces in sector t.
fn open_place(costs: &[u8], s: usize, own: FieldCell, t: usize, facing: FieldCell) -> bool
    requires { (s ≤ 20000) × (t ≤ 20000) }
    ensures { result ≡ open_pair costs.now s own t facing }
{
    open_at(costs, s * SECTOR_CELLS + cell_index(own))
        && open_at(costs, t * SECTOR_CELLS + cell_index(facing))
}

// The mark of two rows of cells that face each other.
fn cells_mark(costs: &[u8], s: usize, t: usize, cells: BorderCells) -> u16
    requires { (s ≤ 20000) × (t ≤ 20000) }
    ensures { result ≡ bits (open_between costs.now s cells.own t cells.facing) 10 }
{
    mark_of(|i| open_place(costs, s, cells.own[i], t, cells.facing[i]))
}

// The mark of a side.
#[tactic(auto, using(crate::proofs::Places::beyond_small, crate::proofs::Places::mark_beyond, crate::proofs::Places::mark_none))]
pub fn side_mark(m: Measures, costs: &[u8], s: usize, side: Side) -> u16
    requires { (1 ≤ m.rows) × (s ≤ 10000) }
    ensures { result ≡ mark_of m costs.now s side }
{
    neighbour(m, s, side).map_or(0, |t| {
        cells_mark(costs, s, t, boundary_field_cells(side))
    })
}
