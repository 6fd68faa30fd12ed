// The least path, written down portal by portal: by cost, then edges, then PortalNode order.
ghost use Rattle.std.specs.Prelude.{◌≡◌, true, ℕ, ◌*◌, ◌/◌, ◌≤◌, ◌<◌, MatchOption, length, get_or};
ghost use Rattle.std.specs.Option.{unwrap_or};
ghost use Rattle.laws.specs.Graph.{Graph};
ghost use Rattle.laws.specs.FirstPath.{Tight, better, closer, next};
ghost use Rattle.model.specs.Windows.{border_cell};
ghost use Rattle.model.specs.Portals.{portal_count, arc_count, arc_tail, is_portal, portal_graph};
ghost use Rattle.model.specs.LeastPath.{unlinked, cell_rank, node_rank, keys_to, least_path};
ghost use Rattle.store.specs.Stored.{stored};
ghost use Rattle.graph.specs.Edges.{graph_of};
ghost use Rattle.path.specs.Following.{Linked, Best};

use arrayvec::ArrayVec;
use fields::sectors::SECTOR_CELLS;
use graph::portals::{
    HALL_PORTALS, SECTOR_PORTALS, head_of, portal_run, portal_sector, portal_side,
};
use graph::table::Edges;
use model::Side;
use store::opened::Opened;

// The rank of the cell at a place of a side: by column, then row.
fn border_rank(side: Side, place: usize) -> usize
    requires { place < 10 }
    ensures { (result ≡ cell_rank (border_cell side place)) × (result < 100) }
{
    match side {
        Side::North => place * 10,
        Side::East => 90 + place,
        Side::South => place * 10 + 9,
        Side::West => place,
    }
}

// A portal's rank in PortalNode order: sector, first cell, last cell, boundary.
fn node_rank(hall: &Opened<'_>, p: usize) -> usize
    requires { is_portal (stored hall.now) p ≡ true }
    ensures { result ≡ node_rank (stored hall.now) p }
{
    let side = portal_side(p);
    let run = portal_run(hall, p);
    let first = border_rank(side, run.first);
    let last = border_rank(side, run.last);
    ((portal_sector(p) * SECTOR_CELLS + first) * SECTOR_CELLS + last) * 4 + side as usize
}

// Whether portal v comes before the best so far, if there is one.
fn better(hall: &Opened<'_>, v: usize, best: Option<usize>) -> bool
    requires { (is_portal (stored hall.now) v ≡ true) × Best hall.now best }
    ensures { (g : Graph) → ((p : ℕ) → is_portal (stored hall.now) p ≡ true → p < g.nodes) → result ≡ better g (node_rank (stored hall.now)) v (unwrap_or best g.nodes) }
{
    match best {
        Some(best) => node_rank(hall, v) < node_rank(hall, best),
        None => true,
    }
}

// The head of arc a of portal u, if a least path goes along it.
fn along(edges: Edges, keys: &[u32], u: usize, a: usize) -> Option<usize>
    requires { (length keys.now ≡ portal_count edges.measures) × (a < arc_count edges.measures) × (u ≡ arc_tail a) }
    ensures { let g = graph_of edges.entry in MatchOption result (Tight g keys.now u a → ⊥) (λ v. (v ≡ g.head a) × Tight g keys.now u a) }
{
    let w = edges.weights[a];
    if w == 0 {
        return None;
    }
    let rest = keys[u].checked_sub(w)?;
    let v = head_of(edges.measures, u, a % SECTOR_PORTALS);
    (rest == keys[v]).then_some(v)
}

// The best so far, or the head of arc a of portal u where a least path goes along it and it comes before.
fn closer(
    hall: &Opened<'_>,
    edges: Edges,
    keys: &[u32],
    u: usize,
    a: usize,
    best: Option<usize>,
) -> Option<usize>
    requires { Linked hall.now edges (length keys.now) × (a < arc_count edges.measures) × (u ≡ arc_tail a) × Best hall.now best }
    ensures is { let n = portal_count edges.entry.measures in unwrap_or result n ≡ closer (graph_of edges.entry) (node_rank (stored hall.now)) keys.now u a (unwrap_or best n) }
    ensures some { Best hall.now result }
{
    match along(edges, keys, u, a) {
        Some(v) if better(hall, v, best) => Some(v),
        _ => best,
    }
}

// The portal after u on the least path, if there is one.
fn next_portal(hall: &Opened<'_>, edges: Edges, keys: &[u32], u: usize) -> Option<usize>
    requires { Linked hall.now edges (length keys.now) × (u < portal_count edges.measures) }
    ensures { unwrap_or result (portal_count edges.entry.measures) ≡ next (graph_of edges.entry) (node_rank (stored hall.now)) keys.now u (arc_count edges.entry.measures) }
{
    let mut best = None;
    for a in u * SECTOR_PORTALS..u * SECTOR_PORTALS + SECTOR_PORTALS {
        best = closer(hall, edges, keys, u, a, best);
    }
    best
}

// The least path from portal p to the one whose keys are given.
pub fn least_path(
    hall: &Opened<'_>,
    edges: Edges,
    keys: &[u32],
    p: usize,
) -> ArrayVec<u16, HALL_PORTALS>
    requires linked { Linked hall.now edges (length keys.now) × (p < portal_count edges.measures) × (get_or keys.now p 0 < unlinked) }
    requires by_index { (e : ℕ) × (e < portal_count edges.measures) × (keys.now ≡ keys_to (portal_graph (stored hall.now)) e) }
    ensures { result.items ≡ least_path (stored hall.now) (portal_graph (stored hall.now)) keys.now p }
{
    let mut nodes = ArrayVec::new();
    let mut u = p;
    while keys[u] != 0 {
        nodes.push(u as u16);
        u = next_portal(hall, edges, keys, u).unwrap();
    }
    nodes.push(u as u16);
    nodes
}
