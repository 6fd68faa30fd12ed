// The border cells of the sides.
ghost use Rattle.std.specs.Prelude.{◌≡◌, ◌<◌};
ghost use Rattle.laws.specs.Table.{tabulate};
ghost use Rattle.model.specs.Cells.{index_of};
ghost use Rattle.model.specs.Windows.{border, border_cell, border_cells};

use fields::sides::opposite;
use model::{BorderCells, FieldCell, Side};
use std::array::from_fn;

// The ten border cells of a side, from the west or from the north.
#[tactic(auto, unfolding(laws::specs::Table::tabulate))]
fn side_cells(side: Side) -> [FieldCell; 10]
    ensures { result ≡ tabulate (border_cell side) 10 0 }
{
    match side {
        Side::North => from_fn(|place| FieldCell {
            column: place as u8,
            row: 0,
        }),
        Side::East => from_fn(|place| FieldCell {
            column: 9,
            row: place as u8,
        }),
        Side::South => from_fn(|place| FieldCell {
            column: place as u8,
            row: 9,
        }),
        Side::West => from_fn(|place| FieldCell {
            column: 0,
            row: place as u8,
        }),
    }
}

// The ten border cells of a side, and those of the side that it faces.
#[tactic(auto, unfolding(model::specs::Windows::border_cells))]
pub fn boundary_field_cells(side: Side) -> BorderCells
    ensures { result ≡ border_cells side }
{
    BorderCells {
        own: side_cells(side),
        facing: side_cells(opposite(side)),
    }
}

// The index of a cell.
pub fn cell_index(cell: FieldCell) -> usize
    ensures { (result ≡ index_of cell) × (result < 3000) }
{
    usize::from(cell.row) * 10 + usize::from(cell.column)
}

// The index of the cell at a place of a side. Not read off `side_cells`: all ten are made for an index then, and the windows of a small hall take up to three times the instructions.
#[tactic(auto, using(model::specs::CellSides::border_low))]
pub fn border_index(side: Side, place: usize) -> u8
    requires { place < 10 }
    ensures { result ≡ border side place }
{
    let along = place as u8;
    let (column, row) = match side {
        Side::North => (along, 0),
        Side::East => (9, along),
        Side::South => (along, 9),
        Side::West => (0, along),
    };
    cell_index(FieldCell { column, row }) as u8
}
