// Scaling, and rescaling around a changed cell: document 01, item 7 and "A change". Costs are lists by floor number; walks go over the board.
#![tactic(auto)]

pub mod nearby;

ghost use Rattle.std.specs.Prelude.{◌≡◌, ◌+◌, ◌*◌, ◌≤◌, ◌<◌, length};
ghost use Rattle.laws.specs.Fold.{run};
ghost use Rattle.model.specs.Sectors.{sectors};
ghost use Rattle.model.specs.Scaling.{scale_cell, scale_sector, scale_floor};
ghost use Rattle.model.specs.Change.{reset_sector, rescaled};
ghost use Rattle.model.specs.Nearby.{at_nearby};
ghost use Rattle.walks.specs.Board.{board_of};
ghost use Rattle.walks.specs.Costs.{Costs};
ghost use Rattle.walks.specs.Walks.{Shows};

use crate::nearby::{PLACES, nearby_sector};
use fields::copies::copy_part;
use fields::costs::is_open;
use fields::sectors::{SECTOR_CELLS, sectors};
use model::Measures;
use walks::board::{corner, show_floor, walls};
use walks::walk::{Start, scale_in_directions};

// The eight walks from a cell, if it is base-blocked.
#[tactic(auto, unfolding(model::specs::Scaling::scale_cell))]
fn scale_cell(m: Measures, base: &[u8], from: Start, scaled: &mut [u8], board: &mut [u8])
    requires { Costs m base.now × Shows m from.sector from.corner scaled.old board.old }
    ensures list { scaled.new ≡ scale_cell m base.now from.sector from.index scaled.old }
    ensures shown { Shows m from.sector from.corner scaled.new board.new }
{
    if !is_open(base, from.sector * SECTOR_CELLS + from.index) {
        scale_in_directions(m, from, scaled, board);
    }
}

// The cells of a sector, in index order.
#[tactic(auto, using(laws::specs::Fold::counting), unfolding(model::specs::Scaling::scale_sector))]
fn scale_costfield(m: Measures, base: &[u8], sector: usize, scaled: &mut [u8], board: &mut [u8])
    requires { Costs m base.now × Costs m scaled.old × (sector < sectors m) × (board.old ≡ board_of m scaled.old) }
    ensures list { scaled.new ≡ scale_sector m base.now sector scaled.old }
    ensures shown { board.new ≡ board_of m scaled.new }
{
    let corner = corner(m, sector);
    for index in 0..SECTOR_CELLS {
        let from = Start {
            sector,
            corner,
            index,
        };
        scale_cell(m, base, from, scaled, board);
    }
}

// The sectors, in number order.
#[tactic(auto, using(laws::specs::Fold::counting))]
fn scale_sectors(m: Measures, base: &[u8], scaled: &mut [u8], board: &mut [u8])
    requires { Costs m base.now × Costs m scaled.old × (board.old ≡ board_of m scaled.old) }
    ensures { scaled.new ≡ run (scale_sector m base.now) (sectors m) scaled.old }
{
    for s in 0..sectors(m) {
        scale_costfield(m, base, s, scaled, board);
    }
}

// All scaled costs start as base costs; then the sectors are scaled. At scale 1 no walk blocks a cell.
pub fn scale_all_costfields(m: Measures, base: &[u8], scaled: &mut [u8])
    requires { Costs m base.now × Costs m scaled.old }
    ensures { scaled.new ≡ scale_floor m base.now }
{
    scaled.copy_from_slice(base);
    if m.scale == 1 {
        return;
    }
    let mut board = walls();
    show_floor(m, scaled, &mut board);
    scale_sectors(m, base, scaled, &mut board);
}

// Scaled costs are reset to base in sector s.
#[tactic(auto, unfolding(model::specs::Change::reset_sector))]
fn reset_sector(base: &[u8], s: usize, scaled: &mut [u8])
    requires { (s * 100 + 100 ≤ length base.now) × (length scaled.old ≡ length base.now) }
    ensures { scaled.new ≡ reset_sector base.now s scaled.old }
{
    let a = s * SECTOR_CELLS;
    copy_part(base, a, SECTOR_CELLS, a, scaled);
}

// Resets the sectors around t. This loop, the next one and `remark` of builder stay three: a closure over lists that it changes is no plainer, and its proof is longer.
#[tactic(auto, using(laws::specs::Fold::counting, model::specs::Nearby::nearby_lt))]
fn reset_nearby(m: Measures, base: &[u8], t: usize, scaled: &mut [u8])
    requires { Costs m base.now × Costs m scaled.old × (t < sectors m) }
    ensures { scaled.new ≡ run (at_nearby m t (reset_sector base.now)) 9 scaled.old }
{
    for k in 0..PLACES {
        if let Some(s) = nearby_sector(m, t, k) {
            reset_sector(base, s, scaled);
        }
    }
}

// Rescales the sectors around t.
#[tactic(auto, using(laws::specs::Fold::counting, model::specs::Nearby::nearby_lt))]
fn scale_nearby(m: Measures, base: &[u8], t: usize, scaled: &mut [u8], board: &mut [u8])
    requires { Costs m base.now × Costs m scaled.old × (t < sectors m) × (board.old ≡ board_of m scaled.old) }
    ensures { scaled.new ≡ run (at_nearby m t (scale_sector m base.now)) 9 scaled.old }
{
    for k in 0..PLACES {
        if let Some(s) = nearby_sector(m, t, k) {
            scale_costfield(m, base, s, scaled, board);
        }
    }
}

// After a change in sector t: it and its up to eight surrounding sectors are reset, and only then rescaled, t first. At scale 1 no walk blocks a cell.
// Never put into its caller, in which LLVM then clears 20,000 bytes that it fills afterwards.
#[inline(never)]
pub fn rescale(m: Measures, base: &[u8], t: usize, scaled: &mut [u8])
    requires { Costs m base.now × Costs m scaled.old × (t < sectors m) }
    ensures { scaled.new ≡ rescaled m base.now t scaled.old }
{
    reset_nearby(m, base, t, scaled);
    if m.scale != 1 {
        let mut board = walls();
        show_floor(m, scaled, &mut board);
        scale_nearby(m, base, t, scaled, &mut board);
    }
}
