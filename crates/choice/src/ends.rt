// The least keys of paths to the goal over all end portals at once: the same search, begun with the moves from each end to the goal.
ghost use Rattle.std.specs.Prelude.{◌≡◌, ℕ, ◌+◌, ◌*◌, ◌≤◌, ◌<◌, length};
ghost use Rattle.laws.specs.Graph.{Graph, Sound, BothWays};
ghost use Rattle.laws.specs.Starts.{Tried};
ghost use Rattle.model.specs.Portals.{sector_portals, portal_count};
ghost use Rattle.graph.specs.Edges.{graph_of};
ghost use Rattle.choice.specs.Ends.{end_weight, end_cost, EndsBegun, Nearest};

use graph::edges::KEY_STEP;
use graph::portals::{HALL_PORTALS, SECTOR_PORTALS};
use graph::table::Edges;
use search::keys::settle;

// The end with number v begins with the moves from there to the goal, if that is less, and then waits.
fn offer_end(v: usize, last: Option<u8>, keys: &mut [u32], wait: &mut [bool])
    requires { (v < length keys.old) × (v < length wait.old) }
    ensures tried { Tried v (end_weight last) keys.old wait.old keys.new wait.new }
    ensures light { end_weight last ≤ 1048576 }
{
    let Some(last) = last else {
        return;
    };
    let w = KEY_STEP * (u32::from(last) + 1);
    if keys[v] <= w {
        return;
    }
    keys[v] = w;
    wait[v] = true;
}

// The goal's turn: its arcs to the ends of the sector whose first number is q.
fn offer_ends(q: usize, lasts: &[Option<u8>; SECTOR_PORTALS], keys: &mut [u32], wait: &mut [bool])
    requires { (q + sector_portals ≤ length keys.old) × (length wait.old ≡ length keys.old) }
    ensures begun { (g : Graph) → Sound g → length keys.old ≡ g.nodes → EndsBegun g q lasts.now 0 keys.old wait.old → EndsBegun g q lasts.now sector_portals keys.new wait.new }
    ensures light { (k : ℕ) → k < sector_portals → end_cost lasts.now k ≤ 1048576 }
{
    for (k, last) in lasts.iter().enumerate() {
        offer_end(q + k, *last, keys, wait);
    }
}

// The least key from each portal to the goal over one of the ends, whose numbers begin at q: 4,096 for each move from the end to the goal and 4,096 more are counted in. u32::MAX where there is none.
pub fn keys_to_goal(edges: Edges, q: usize, lasts: &[Option<u8>; SECTOR_PORTALS], keys: &mut [u32])
    requires lists { (length keys.old ≡ portal_count edges.measures) × (q + sector_portals ≤ portal_count edges.measures) }
    requires both_ways { ∥ BothWays (graph_of edges) ∥₁ }
    ensures { Nearest (graph_of edges.entry) q lasts.now keys.new }
{
    let mut room = [false; HALL_PORTALS];
    let wait = &mut room[..keys.len()];
    keys.fill(u32::MAX);
    offer_ends(q, lasts, keys, wait);
    settle(edges, keys, wait);
}
