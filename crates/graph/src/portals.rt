// Portals by number, read from a store that passes the check.
ghost use Rattle.std.specs.Prelude.{◌≡◌, true, ◌*◌, ◌/◌, ◌≤◌, ◌<◌};
ghost use Rattle.model.specs.Cells.{opposite};
ghost use Rattle.model.specs.Sectors.{sector_cells, sectors};
ghost use Rattle.model.specs.Portals.{portal_at, sector_portals, hall_portals, portal_sector, portal_side, portal_window, portal_mark, is_portal, window_of, midpoint, facing, head_of};
ghost use Rattle.store.specs.Stored.{stored};
ghost use Rattle.graph.specs.EdgeTable.{bare};
ghost use Rattle.graph.specs.Reading.{Places};

use fields::sectors::{beyond, sectors};
use fields::sides::{SIDES, opposite};
use model::{Measures, PortalWindow, Side};
use portal::border::border_index;
use portal::runs::{OpenRun, window_at, window_count};
use portal::windows::window_of;
use store::opened::Opened;

// How many numbers for portals a side, a sector and the largest hall of 100 sectors have, and how many arcs: 20 for each of the numbers.
const SIDE_PORTALS: usize = 5;

pub const SECTOR_PORTALS: usize = 20;

pub const HALL_PORTALS: usize = 2000;

pub const SECTOR_ARCS: usize = SECTOR_PORTALS * SECTOR_PORTALS;

pub const HALL_ARCS: usize = HALL_PORTALS * SECTOR_PORTALS;

// A portal's sector, the side that it stands on, its window there, and the mark of that side.
pub fn portal_sector(p: usize) -> usize
    ensures { result ≡ portal_sector p }
{
    p / SECTOR_PORTALS
}

pub fn portal_side(p: usize) -> Side
    ensures { result ≡ portal_side p }
{
    SIDES[p % SECTOR_PORTALS / SIDE_PORTALS]
}

fn portal_window(p: usize) -> usize
    ensures { result ≡ portal_window p }
{
    p % SIDE_PORTALS
}

#[tactic(auto, using(crate::specs::Reading::mark_read, crate::specs::Reading::mark_low))]
fn mark_of(hall: &Opened<'_>, p: usize) -> u16
    requires { portal_sector p < sectors hall.now.store.measures }
    ensures { (result ≡ portal_mark (stored hall.now) p) × (result ≤ 1023) }
{
    hall.store.mark(p / SIDE_PORTALS)
}

// Whether a number is a portal's.
#[tactic(auto, using(crate::specs::Reading::no_sector, crate::specs::Reading::window_test))]
pub fn is_portal(hall: &Opened<'_>, p: usize) -> bool
    ensures { result ≡ is_portal (stored hall.now) p }
{
    portal_sector(p) < sectors(hall.store.measures)
        && portal_window(p) < window_count(mark_of(hall, p))
}

// The window of a portal: its first and last place, and its cells.
#[tactic(auto, using(crate::specs::Reading::portal_sector_lem, crate::specs::Reading::places_of_lem, model::specs::PortalNumbers::portal_is))]
pub fn portal_run(hall: &Opened<'_>, p: usize) -> OpenRun
    requires { is_portal (stored hall.now) p ≡ true }
    ensures { Places (portal_mark (stored hall.now) p) (portal_window p) result }
{
    window_at(mark_of(hall, p), portal_window(p))
}

#[tactic(auto, using(crate::specs::Reading::portal_sector_lem, model::specs::PortalNumbers::portal_is))]
pub fn window_of_portal(hall: &Opened<'_>, p: usize) -> PortalWindow
    requires { is_portal (stored hall.now) p ≡ true }
    ensures { result ≡ window_of (stored hall.now) p }
{
    window_of(portal_side(p), mark_of(hall, p), portal_window(p))
}

// The crossing of a portal: the index of its midpoint.
pub fn midpoint(hall: &Opened<'_>, p: usize) -> u8
    requires { is_portal (stored hall.now) p ≡ true }
    ensures { (result ≡ midpoint (stored hall.now) p) × (result < sector_cells) }
{
    let run = portal_run(hall, p);
    border_index(portal_side(p), (run.first + run.last) / 2)
}

// The portal of the same number on the facing side, which is in sector t.
pub fn facing_in(t: usize, p: usize) -> usize
    requires { t ≤ 110 }
    ensures { result ≡ portal_at t (opposite (portal_side p)) (portal_window p) }
{
    t * SECTOR_PORTALS + opposite(portal_side(p)) as usize * SIDE_PORTALS + portal_window(p)
}

// The portal of the same number on the facing side.
#[tactic(auto, using(model::specs::SectorSides::beyond_low), unfolding(model::specs::Portals::facing))]
pub fn facing(m: Measures, p: usize) -> usize
    requires { (m.rows ≤ 10) × (p < hall_portals) }
    ensures { result ≡ facing (bare m) p }
{
    facing_in(beyond(m, portal_sector(p), portal_side(p)), p)
}

// The portal to which place c of portal p leads.
#[tactic(auto, using(model::specs::PortalEdges::head_own, model::specs::PortalEdges::head_other))]
pub fn head_of(m: Measures, p: usize, c: usize) -> usize
    requires { (m.rows ≤ 10) × (p < hall_portals) × (c < sector_portals) }
    ensures { result ≡ head_of (bare m) p c }
{
    if c == p % SECTOR_PORTALS {
        facing(m, p)
    } else {
        portal_sector(p) * SECTOR_PORTALS + c
    }
}
