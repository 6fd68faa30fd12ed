// The search for a route: document 01, "A route". It answers what was found, and writes the steps where the list has room for all of them; the call refuses where it has not.
ghost use Rattle.std.specs.Prelude.{◌≡◌, ◌*◌, ◌/◌, ◌≤◌, ◌<◌, length};
ghost use Rattle.laws.specs.Graph.{BothWays};
ghost use Rattle.model.specs.Sectors.{sectors, cells, sector_of};
ghost use Rattle.model.specs.Portals.{sector_portals, place_portal, portal_count, arc_count, portal_graph};
ghost use Rattle.model.specs.Route.{through_portals, route_of};
ghost use Rattle.model.specs.Calls.{outcome};
ghost use Rattle.store.specs.Stored.{stored};
ghost use Rattle.graph.specs.Edges.{graph_of};
ghost use Rattle.path.specs.Following.{Linked};
ghost use Rattle.route.specs.Finding.{found_into, last_route, Paired, pair_route};

use choice::pair::choose_pair;
use choice::places::Pair;
use fields::sectors::{SECTOR_CELLS, sectors};
use graph::edges::KEY_STEP;
use graph::near::{moves_to, portal_moves};
use graph::portals::{HALL_ARCS, HALL_PORTALS, SECTOR_ARCS, SECTOR_PORTALS};
use graph::table::Edges;
use model::{Measures, Route};
use path::least::least_path;
use path::steps::{step_count, write_last, write_steps};
use search::keys::keys_to;
use store::opened::Opened;

// The route of one step, to a goal at these moves in the same sector.
fn one_step(m: Measures, goal: usize, moves: u8, list: &mut [u8]) -> Option<Route>
    requires { (1 ≤ m.rows) × (sectors m ≤ 100) × (goal < cells m) }
    ensures answer { result ≡ outcome (last_route m goal moves) }
    ensures steps { list.new ≡ found_into (last_route m goal moves) list.old }
{
    let found = Some(Route {
        steps: 1,
        leg: 0,
        run: u32::from(moves),
    });
    if list.len() / 6 < 1 {
        return found;
    }
    write_last(m, goal / SECTOR_CELLS, goal, list);
    found
}

// The route over a pair: from its start to its end, and from there to the goal.
fn through_pair(
    hall: &Opened<'_>,
    edges: Edges,
    source: usize,
    goal: usize,
    pair: Pair,
    keys: &mut [u32],
    list: &mut [u8],
) -> Option<Route>
    requires linked { Linked hall.now edges (length keys.old) × Paired (stored hall.now) (place_portal (sector_of source) pair.start) (place_portal (sector_of goal) pair.end) }
    requires both_ways { ∥ BothWays (graph_of edges) ∥₁ }
    ensures answer { result ≡ outcome (pair_route (stored hall.now) goal (place_portal (sector_of source) pair.start) (place_portal (sector_of goal) pair.end) pair.leg pair.last) }
    ensures steps { list.new ≡ found_into (pair_route (stored hall.now) goal (place_portal (sector_of source) pair.start) (place_portal (sector_of goal) pair.end) pair.leg pair.last) list.old }
{
    let p = source / SECTOR_CELLS * SECTOR_PORTALS + pair.start;
    let e = goal / SECTOR_CELLS * SECTOR_PORTALS + pair.end;
    keys_to(edges, e, keys);
    let nodes = least_path(hall, edges, keys, p);
    let steps = step_count(nodes.len());
    let found = Some(Route {
        steps: steps as u32,
        leg: u32::from(pair.leg),
        run: keys[p] / KEY_STEP + u32::from(pair.last),
    });
    if list.len() / 6 < steps {
        return found;
    }
    write_steps(hall, nodes.as_slice(), goal, list);
    found
}

// The route over portals.
fn through_portals(hall: &Opened<'_>, source: usize, goal: usize, list: &mut [u8]) -> Option<Route>
    requires { (source < cells hall.now.store.measures) × (goal < cells hall.now.store.measures) }
    ensures answer { result ≡ outcome (through_portals (stored hall.now) (portal_graph (stored hall.now)) source goal) }
    ensures steps { list.new ≡ found_into (through_portals (stored hall.now) (portal_graph (stored hall.now)) source goal) list.old }
{
    let mut table = [0u32; HALL_ARCS];
    let mut keys = [0u32; HALL_PORTALS];
    let table = &mut table[..sectors(hall.store.measures) * SECTOR_ARCS];
    let keys = &mut keys[..sectors(hall.store.measures) * SECTOR_PORTALS];
    let legs = portal_moves(hall, source);
    let lasts = portal_moves(hall, goal);
    let edges = Edges::of_store(hall, table);
    let p = source / SECTOR_CELLS * SECTOR_PORTALS;
    let q = goal / SECTOR_CELLS * SECTOR_PORTALS;
    let pair = choose_pair(edges, p, q, &legs, &lasts, keys)?;
    through_pair(hall, edges, source, goal, pair, keys, list)
}

// The route from one cell to another, its steps at the front of a list.
pub fn find_path(hall: &Opened<'_>, source: usize, goal: usize, list: &mut [u8]) -> Option<Route>
    requires { (source < cells hall.now.store.measures) × (goal < cells hall.now.store.measures) }
    ensures answer { result ≡ outcome (route_of (stored hall.now) source goal) }
    ensures steps { list.new ≡ found_into (route_of (stored hall.now) source goal) list.old }
{
    match moves_to(hall, source, goal) {
        Some(moves) => one_step(hall.store.measures, goal, moves, list),
        None => through_portals(hall, source, goal, list),
    }
}
