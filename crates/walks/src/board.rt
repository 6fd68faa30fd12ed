// The board: the plain floor as one list, 120 rows of 120 places, with walls around the floor.
ghost use Rattle.std.specs.Prelude.{◌≡◌, ◌+◌, ◌*◌, ◌≤◌, ◌<◌, replicate};
ghost use Rattle.walks.specs.Costs.{Costs};
ghost use Rattle.walks.specs.Board.{board_of, corner};
ghost use Rattle.walks.specs.Showing.{Showing, row_start};

use fields::copies::copy_part;
use model::Measures;

// A board of walls.
pub fn walls() -> [u8; 14400]
    ensures { result ≡ replicate 14400 255 }
{
    [255u8; 14400]
}

// Where the first cell of sector s is shown.
#[tactic(auto, unfolding(crate::specs::Board::corner))]
pub fn corner(m: Measures, s: usize) -> usize
    requires { (1 ≤ m.rows) × (s < 100) }
    ensures { result ≡ corner m s }
{
    let rows = usize::from(m.rows);
    (s % rows * 10 + 10) * 120 + s / rows * 10 + 10
}

// Shows the ten cells of row y of the plain floor that are in sector column c.
fn show_ten(m: Measures, costs: &[u8], y: usize, c: usize, board: &mut [u8])
    requires { Costs m costs.now × (y < m.rows * 10) × (c < m.columns) × Showing m costs.now (row_start y + c * 10) board.old }
    ensures { Showing m costs.now (row_start y + (c + 1) * 10) board.new }
{
    let s = c * usize::from(m.rows) + y / 10;
    let a = s * 100 + y % 10 * 10;
    let b = (y + 10) * 120 + 10 + c * 10;
    copy_part(costs, a, 10, b, board);
}

// Shows row y, sector by sector.
fn show_row(m: Measures, costs: &[u8], y: usize, board: &mut [u8])
    requires { Costs m costs.now × (y < m.rows * 10) × Showing m costs.now (row_start y) board.old }
    ensures { Showing m costs.now (row_start (y + 1)) board.new }
{
    for c in 0..usize::from(m.columns) {
        show_ten(m, costs, y, c, board);
    }
}

// Shows the floor on a board of walls, row by row.
#[tactic(auto, using(crate::specs::Showing::floor_start, crate::specs::Showing::floor_end))]
pub fn show_floor(m: Measures, costs: &[u8], board: &mut [u8])
    requires { Costs m costs.now × Showing m costs.now 0 board.old }
    ensures { board.new ≡ board_of m costs.now }
{
    for y in 0..usize::from(m.rows) * 10 {
        show_row(m, costs, y, board);
    }
}
