// The steps of a route, written as a flat list of six bytes each: sector, goal, side, first and last cell.
ghost use Rattle.std.specs.Prelude.{◌≡◌, true, ◌++◌, ◌+◌, ◌*◌, ◌/◌, ◌≤◌, ◌<◌, length, take, drop};
ghost use Rattle.model.specs.Sectors.{sector_at, place_of};
ghost use Rattle.model.specs.Steps.{last_step, step_bytes, flat_steps};
ghost use Rattle.model.specs.Portals.{is_portal};
ghost use Rattle.model.specs.Route.{step_at, steps_of};
ghost use Rattle.store.specs.Stored.{stored};
ghost use Rattle.path.specs.PortalPaths.{PortalPath};

use fields::copies::put_front;
use fields::sectors::SECTOR_CELLS;
use graph::portals::{midpoint, portal_sector, window_of_portal};
use model::{Measures, RouteStep, SectorID};
use store::opened::Opened;

// How many steps a path of n portals has, n at least 1: the even positions before the last, and the last.
pub fn step_count(n: usize) -> usize
    ensures { result ≡ n / 2 + 1 }
{
    n / 2 + 1
}

// A sector by column and row.
fn sector_at(m: Measures, s: usize) -> SectorID
    requires { (1 ≤ m.rows) × (s < 256) }
    ensures { result ≡ sector_at m s }
{
    let rows = usize::from(m.rows);
    SectorID {
        column: (s / rows) as u8,
        row: (s % rows) as u8,
    }
}

// The step at a portal: its midpoint and its window.
fn step_at(hall: &Opened<'_>, p: usize) -> RouteStep
    requires { is_portal (stored hall.now) p ≡ true }
    ensures { result ≡ step_at (stored hall.now) p }
{
    let sector = sector_at(hall.store.measures, portal_sector(p));
    let goal = midpoint(hall, p);
    let w = window_of_portal(hall, p);
    RouteStep {
        column: sector.column,
        row: sector.row,
        goal,
        side: w.side,
        first: w.first,
        last: w.last,
    }
}

// The last step, which has the goal and no window, at the front of a list.
pub fn write_last(m: Measures, s: usize, goal: usize, list: &mut [u8])
    requires { (1 ≤ m.rows) × (s < 256) × (6 ≤ length list.old) }
    ensures { list.new ≡ step_bytes (last_step (sector_at m s) (place_of goal)) ++ drop 6 list.old }
{
    let sector = sector_at(m, s);
    let step = RouteStep {
        column: sector.column,
        row: sector.row,
        goal: (goal % SECTOR_CELLS) as u8,
        side: 4,
        first: 0,
        last: 0,
    };
    put_front(&<[u8; 6]>::from(step), list);
}

// The steps of a path of portals, at the front of a list.
pub fn write_steps(hall: &Opened<'_>, nodes: &[u16], goal: usize, list: &mut [u8])
    requires { PortalPath (stored hall.now) nodes.now × (6 * (length nodes.now / 2 + 1) ≤ length list.old) }
    ensures { list.new ≡ flat_steps (steps_of (stored hall.now) goal true nodes.now) ++ drop (6 * (length nodes.now / 2 + 1)) list.old }
{
    let count = nodes.len() / 2;
    for i in 0..count {
        let step = step_at(hall, usize::from(nodes[2 * i]));
        put_front(&<[u8; 6]>::from(step), &mut list[6 * i..]);
    }
    let last = portal_sector(usize::from(nodes[nodes.len() - 1]));
    write_last(hall.store.measures, last, goal, &mut list[6 * count..]);
}
