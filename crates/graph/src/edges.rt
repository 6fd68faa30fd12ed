// The edges of the portal graph, as one list of weights by arc number.
ghost use Rattle.std.specs.Prelude.{◌≡◌, ◌+◌, ◌*◌, ◌/◌, ◌%◌, ◌≤◌, ◌<◌, length, get_or};
ghost use Rattle.model.specs.Sectors.{sectors, costs_of};
ghost use Rattle.model.specs.Portals.{sector_portals, hall_portals, sector_arcs, portal_count, arc_count, portal_sector, portal_place, outer_edge};
ghost use Rattle.moves.specs.Levels.{open_words};
ghost use Rattle.store.specs.Stored.{stored};
ghost use Rattle.graph.specs.EdgeTable.{Filled, Row, edge_table};
ghost use Rattle.graph.specs.Near.{sector_mids};
ghost use Rattle.graph.specs.Weights.{edge_by};

use crate::near::{NO_CROSSING, moves_from, near_by, sector_mids, sector_words};
use crate::portals::{SECTOR_PORTALS, facing_in, is_portal, portal_sector, portal_side};
use fields::sectors::{SECTOR_CELLS, neighbour, sectors};
use moves::spread::Spread;
use store::opened::Opened;

// An edge of weight w has the key KEY_STEP * w + 1, so that the least key of a path is the least cost, then the fewest edges.
pub const KEY_STEP: u32 = 4096;

const FACING_KEY: u32 = KEY_STEP + 1;

// A portal's edge to the facing one, or 0: in a list of weights that is no edge, as in the definitions.
#[tactic(auto, using(crate::specs::Weights::outer_none, crate::specs::Weights::near_beyond))]
fn outer_edge(hall: &Opened<'_>, p: usize) -> u32
    requires { p < portal_count hall.now.store.measures }
    ensures { result ≡ outer_edge (stored hall.now) p }
{
    let Some(t) = neighbour(hall.store.measures, portal_sector(p), portal_side(p)) else {
        return 0;
    };
    if is_portal(hall, facing_in(t, p)) {
        FACING_KEY
    } else {
        0
    }
}

// The edge at place c of a portal, or 0: at its own place the edge to the facing one, at another the moves to the midpoint there.
#[tactic(auto, using(crate::specs::Weights::edge_own, crate::specs::Weights::edge_far, crate::specs::Weights::edge_near))]
fn edge_at(spread: &Spread, mid: u8, outer: u32, own: usize, c: usize) -> u32
    ensures { result ≡ edge_by spread.now mid outer own c }
{
    if c == own {
        return outer;
    }
    // By map_or a route over combs takes 1.7 % more instructions.
    match near_by(spread, mid) {
        Some(moves) => KEY_STEP * u32::from(moves) + 1,
        None => 0,
    }
}

// The 20 places of portal p, by the moves from its midpoint and the midpoints of its sector.
fn fill_places(
    p: usize,
    spread: &Spread,
    mids: &[u8; SECTOR_PORTALS],
    outer: u32,
    table: &mut [u32],
)
    requires { (p < hall_portals) × (p * sector_portals + sector_portals ≤ length table.old) }
    ensures { Row (λ c. edge_by spread.now (get_or mids.now c 0) outer (portal_place p) c) p sector_portals table.old table.new }
{
    for (c, mid) in mids.iter().enumerate() {
        table[p * SECTOR_PORTALS + c] = edge_at(spread, *mid, outer, p % SECTOR_PORTALS, c);
    }
}

// The 20 places of number p, which is no portal's.
#[tactic(auto, using(crate::specs::EdgeTable::row_clear))]
fn clear_places(p: usize, table: &mut [u32])
    requires { (p < hall_portals) × (p * sector_portals + sector_portals ≤ length table.old) }
    ensures { Row (λ c. 0) p sector_portals table.old table.new }
{
    let first = p * SECTOR_PORTALS;
    table[first..first + SECTOR_PORTALS].fill(0);
}

// The edges of number p, with the midpoints and the open cells of its sector: one spread of moves, in place of the last, if it is a portal's.
fn fill_number(
    hall: &Opened<'_>,
    p: usize,
    mids: &[u8; SECTOR_PORTALS],
    words: [u64; 2],
    spread: &mut Spread,
    table: &mut [u32],
)
    requires places { (p < portal_count hall.now.store.measures) × (mids.now ≡ sector_mids (stored hall.now) (portal_sector p)) × Filled (stored hall.now) (p * sector_portals) table.old }
    requires words { words ≡ open_words (costs_of (stored hall.now).scaled (portal_sector p)) }
    ensures { Filled (stored hall.now) (p * sector_portals + sector_portals) table.new }
{
    let mid = mids[p % SECTOR_PORTALS];
    if NO_CROSSING <= mid {
        clear_places(p, table);
        return;
    }
    let cell = portal_sector(p) * SECTOR_CELLS + usize::from(mid);
    moves_from(hall, cell, words, spread);
    fill_places(p, spread, mids, outer_edge(hall, p), table);
}

// The edges of the 20 numbers of sector s.
fn fill_sector(hall: &Opened<'_>, s: usize, table: &mut [u32])
    requires { (s < sectors hall.now.store.measures) × Filled (stored hall.now) (s * sector_arcs) table.old }
    ensures { Filled (stored hall.now) (s * sector_arcs + sector_arcs) table.new }
{
    let mids = sector_mids(hall, s);
    let words = sector_words(hall, s);
    let mut spread = Spread::new();
    for c in 0..SECTOR_PORTALS {
        fill_number(
            hall,
            s * SECTOR_PORTALS + c,
            &mids,
            words,
            &mut spread,
            table,
        );
    }
}

// The weights of a hall's portal graph.
pub fn fill_edges(hall: &Opened<'_>, table: &mut [u32])
    requires { length table.old ≡ arc_count hall.now.store.measures }
    ensures { table.new ≡ edge_table (stored hall.now) }
{
    for s in 0..sectors(hall.store.measures) {
        fill_sector(hall, s, table);
    }
}
