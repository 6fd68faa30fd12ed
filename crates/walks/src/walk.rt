// The walks from a cell. They read the board, and block what they pass both on it and in the list of scaled costs.
ghost use Rattle.std.specs.Prelude.{◌≡◌, ◌+◌, ◌*◌, ◌%◌, ◌≤◌, ◌<◌, length, set, MatchOption, true, false};
ghost use Rattle.laws.specs.Fold.{run};
ghost use Rattle.laws.specs.Search.{Sought};
ghost use Rattle.model.specs.Directions.{eastward, southward};
ghost use Rattle.model.specs.Scaling.{passes, block_step, block_passed, walk};
ghost use Rattle.walks.specs.Lines.{Line, blocked_on};
ghost use Rattle.walks.specs.Board.{stride};
ghost use Rattle.walks.specs.Walks.{block_spot, Shows};

use fields::costs::{BLOCKED, is_open};
use fields::directions::shift_of;
use model::{CompassDir, Measures};

// Where walks begin: a cell of a sector, and the place of the board that shows the sector's first cell.
#[derive(Clone, Copy)]
pub struct Start {
    pub sector: usize,
    pub corner: usize,
    pub index: usize,
    ghost in_sector: { index < 100 },
}

// The walk of up to n steps from place a, each of which adds a number less 121: it stops at the first wall. How many cells it passed before, or None where it met no wall.
#[tactic(auto, using(laws::specs::Search::sought_no))]
fn walk_line(board: &[u8], a: usize, step: usize, n: usize) -> Option<usize>
    requires { Line a step n (length board.now) × (length board.now ≤ 14400) × (step ≤ 242) }
    ensures { MatchOption result (Sought (blocked_on board.now a step) n n false) (λ passed. Sought (blocked_on board.now a step) n passed true) }
{
    let mut at = a;
    let mut passed = 0;
    // Document 01 names this form: a loop that is left by its label.
    'walk: loop {
        if n <= passed {
            break 'walk None;
        }
        at = at + step - 121;
        if !is_open(board, at) {
            break 'walk Some(passed);
        }
        passed += 1;
    }
}

// The place on a circle of ten that a step leads to; e is what the step does, plus one. By a remainder a build at scale 9 takes 22 % more instructions.
fn turned(c: usize, e: usize) -> usize
    requires { (c ≤ 9) × (e ≤ 2) }
    ensures { (result ≡ (c + 9 + e) % 10) × (result ≤ 9) }
{
    match (c, e) {
        (0, 0) => 9,
        (9, 2) => 0,
        _ => c + e - 1,
    }
}

// Blocks the cell in column x and row y of the sector that walks began in.
fn block_cell(from: Start, x: usize, y: usize, scaled: &mut [u8], board: &mut [u8])
    requires { (from.sector * 100 + 100 ≤ length scaled.old) × (from.corner + 1090 ≤ length board.old) × (x ≤ 9) × (y ≤ 9) }
    ensures list { scaled.new ≡ set scaled.old (from.sector * 100 + (y * 10 + x)) 255 }
    ensures place { board.new ≡ set board.old (from.corner + y * 120 + x) 255 }
{
    scaled[from.sector * 100 + (y * 10 + x)] = BLOCKED;
    board[from.corner + y * 120 + x] = BLOCKED;
}

// Blocks what the first n steps of a walk passed. A step over a border comes in again at the other end of the sector.
fn block_passed(from: Start, d: CompassDir, n: usize, scaled: &mut [u8], board: &mut [u8])
    requires { (from.sector * 100 + 100 ≤ length scaled.old) × (from.corner + 1090 ≤ length board.old) × (n ≤ 9) }
    ensures list { scaled.new ≡ run (block_step from.sector from.index d) n scaled.old }
    ensures places { board.new ≡ run (block_spot from.corner from.index d) n board.old }
{
    let by = shift_of(d);
    let mut x = from.index % 10;
    let mut y = from.index / 10;
    for k in 0..n {
        x = turned(x, by.east);
        y = turned(y, by.south);
        block_cell(from, x, y, scaled, board);
    }
}

// A walk of up to scale steps in one direction: only if it meets a wall are the cells passed blocked.
// The two lists stay parameters: as a ghost field, that the board shows the costs is false between the two writes of `block_cell`.
fn scale_in_compass_direction(
    m: Measures,
    from: Start,
    d: CompassDir,
    scaled: &mut [u8],
    board: &mut [u8],
)
    requires { Shows m from.sector from.corner scaled.old board.old }
    ensures list { scaled.new ≡ block_passed m from.sector from.index d (passes m scaled.old from.sector from.index d) scaled.old }
    ensures shown { Shows m from.sector from.corner scaled.new board.new }
{
    let a = from.corner + from.index / 10 * 120 + from.index % 10;
    let by = shift_of(d);
    if let Some(passed) = walk_line(board, a, by.east + 120 * by.south, usize::from(m.scale)) {
        block_passed(from, d, passed, scaled, board);
    }
}

// The walks from a cell in the eight directions, in 01's order. They are written out, so that each is compiled with its own numbers: a build at scale 9 took 36 % more instructions with a loop over a table.
pub fn scale_in_directions(m: Measures, from: Start, scaled: &mut [u8], board: &mut [u8])
    requires { Shows m from.sector from.corner scaled.old board.old }
    ensures list { scaled.new ≡ run (walk m from.sector from.index) 8 scaled.old }
    ensures shown { Shows m from.sector from.corner scaled.new board.new }
{
    scale_in_compass_direction(m, from, CompassDir::North, scaled, board);
    scale_in_compass_direction(m, from, CompassDir::East, scaled, board);
    scale_in_compass_direction(m, from, CompassDir::South, scaled, board);
    scale_in_compass_direction(m, from, CompassDir::West, scaled, board);
    scale_in_compass_direction(m, from, CompassDir::NorthEast, scaled, board);
    scale_in_compass_direction(m, from, CompassDir::SouthEast, scaled, board);
    scale_in_compass_direction(m, from, CompassDir::SouthWest, scaled, board);
    scale_in_compass_direction(m, from, CompassDir::NorthWest, scaled, board);
}
