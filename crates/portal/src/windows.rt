// The windows of a sector, written as a flat list of three bytes each: first cell, last cell and side.
ghost use Rattle.std.specs.Prelude.{◌≡◌, [], ◌∷◌, ◌*◌, ◌≤◌, ◌<◌, length};
ghost use Rattle.model.specs.Windows.{window_count, window_at, side_windows};
ghost use Rattle.portal.specs.SectorWindows.{windows_by, FourMarks, over};

use crate::border::border_index;
use crate::runs::{window_at, window_count};
use fields::copies::put_front;
use fields::sides::SIDES;
use model::{PortalWindow, Side};

// Window j of a side, by its first and last cell.
#[tactic(auto, using(crate::proofs::Entries::inside, crate::proofs::Entries::window_is))]
pub fn window_of(side: Side, mark: u16, j: usize) -> PortalWindow
    requires { (mark ≤ 1023) × (j < window_count mark) }
    ensures { result ≡ window_at side mark j }
{
    let run = window_at(mark, j);
    PortalWindow {
        first: border_index(side, run.first),
        last: border_index(side, run.last),
        side: side as u8,
    }
}

// One entry, at the front of a list.
#[tactic(auto, unfolding(model::specs::Calls::flat_windows))]
fn put_window(list: &mut [u8], w: PortalWindow)
    requires { 3 ≤ length list.old }
    ensures { list.new ≡ over (w ∷ []) list.old }
{
    put_front(&<[u8; 3]>::from(w), list);
}

// The windows of a side, at the front of a list, and how many there are.
#[tactic(auto, using(crate::proofs::Entries::siding))]
fn side_windows(list: &mut [u8], side: Side, mark: u16) -> usize
    requires { (mark ≤ 1023) × (3 * window_count mark ≤ length list.old) }
    ensures { (result ≡ window_count mark) × (list.new ≡ over (side_windows side mark) list.old) }
{
    let count = window_count(mark);
    for j in 0..count {
        put_window(&mut list[3 * j..], window_of(side, mark, j));
    }
    count
}

// How many windows a sector has.
pub fn windows_number(marks: [u16; 4]) -> usize
    ensures { FourMarks marks → result ≡ length (windows_by marks 4) }
{
    marks.iter().map(|mark| window_count(*mark)).sum()
}

// The windows of a sector, N, E, S, W, at the front of a list, and how many there are.
#[tactic(auto, using(crate::proofs::Entries::filling))]
pub fn sector_windows(list: &mut [u8], marks: [u16; 4]) -> usize
    requires { FourMarks marks × (3 * length (windows_by marks 4) ≤ length list.old) }
    ensures { (result ≡ length (windows_by marks 4)) × (list.new ≡ over (windows_by marks 4) list.old) }
{
    let mut count = 0;
    for (side, mark) in SIDES.iter().zip(&marks) {
        count += side_windows(&mut list[3 * count..], *side, *mark);
    }
    count
}
