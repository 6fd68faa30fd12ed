// The least keys of paths to one portal: a search that serves waiting portals in the order in which they came to wait.
// Keys, waits and queue stay three parameters: as fields of one struct each method would have to say that the two lent lists stay the same.
ghost use Rattle.std.specs.Prelude.{◌≡◌, ◌↔◌, false, IsTrue, ℕ, ◌+◌, ◌*◌, ◌/◌, ◌≤◌, ◌<◌, length, get_or};
ghost use Rattle.laws.specs.Graph.{BothWays};
ghost use Rattle.laws.specs.Relaxing.{relaxed};
ghost use Rattle.laws.specs.Waiting.{awaited, work};
ghost use Rattle.laws.specs.Extending.{Keeps};
ghost use Rattle.laws.specs.Turns.{Served, Turned, Lined};
ghost use Rattle.model.specs.Portals.{sector_portals, hall_portals, portal_count, arc_count, portal_sector, arc_tail};
ghost use Rattle.model.specs.LeastPath.{keys_to};
ghost use Rattle.graph.specs.Edges.{graph_of};
ghost use Rattle.search.specs.Searching.{Searched};
ghost use Rattle.search.specs.Turns.{Offerless};

use crate::queue::Queue;
use graph::portals::{HALL_PORTALS, SECTOR_PORTALS, head_of};
use graph::table::Edges;

// Whether an edge of weight w from a portal of this key offers less than the old key.
fn gains(key: u32, w: u32, old: u32) -> bool
    ensures { IsTrue result ↔ (0 < w) × (key + w < old) }
{
    w != 0 && u64::from(key) + u64::from(w) < u64::from(old)
}

// Arc a of portal u: its head takes the offer, if that is less, and then waits. Where there is no edge the head may be no number of the hall.
fn offer(edges: Edges, u: usize, a: usize, keys: &mut [u32], wait: &mut [bool], queue: &mut Queue)
    requires { Searched edges (length keys.old) (length wait.old) × (a < arc_count edges.measures) × (u ≡ arc_tail a) }
    ensures taken { (keys.new ≡ relaxed (graph_of edges.entry) keys.old a) × (wait.new ≡ awaited (graph_of edges.entry) keys.old wait.old a) }
    ensures head { queue.new.head ≡ queue.old.head }
{
    let w = edges.weights[a];
    if w == 0 {
        return;
    }
    let v = head_of(edges.measures, u, a % SECTOR_PORTALS);
    if !gains(keys[u], w, keys[v]) {
        return;
    }
    let waited = wait[v];
    keys[v] = keys[u] + w;
    wait[v] = true;
    if !waited {
        queue.push(v);
    }
}

// Whether an edge of portal u within its sector offers less than the portal there has.
fn offers_inside(edges: Edges, u: usize, keys: &[u32]) -> bool
    requires { (length keys.now ≡ portal_count edges.measures) × (u < portal_count edges.measures) }
    ensures { result ≡ false → Offerless edges.entry.weights.now keys.now u sector_portals }
{
    let key = keys[u];
    let first = u / SECTOR_PORTALS * SECTOR_PORTALS;
    (0..SECTOR_PORTALS).any(|c| gains(key, edges.weights[u * SECTOR_PORTALS + c], keys[first + c]))
}

// The arcs of number u in turn.
fn take_arcs(edges: Edges, u: usize, keys: &mut [u32], wait: &mut [bool], queue: &mut Queue)
    requires { Searched edges (length keys.old) (length wait.old) × (u < portal_count edges.measures) }
    ensures served { Served (graph_of edges.entry) u (u * sector_portals) keys.old wait.old keys.new wait.new }
    ensures head { queue.new.head ≡ queue.old.head }
{
    for a in u * SECTOR_PORTALS..u * SECTOR_PORTALS + SECTOR_PORTALS {
        offer(edges, u, a, keys, wait, queue);
    }
}

// All arcs of number u that offer something: those of its places, or only the one to the facing portal where no other offers anything.
fn take_turn(edges: Edges, u: usize, keys: &mut [u32], wait: &mut [bool], queue: &mut Queue)
    requires { Searched edges (length keys.old) (length wait.old) × (u < portal_count edges.measures) }
    ensures served { Served (graph_of edges.entry) u (u * sector_portals) keys.old wait.old keys.new wait.new }
    ensures head { queue.new.head ≡ queue.old.head }
{
    if offers_inside(edges, u, keys) {
        take_arcs(edges, u, keys, wait, queue);
        return;
    }
    let own = u * SECTOR_PORTALS + u % SECTOR_PORTALS;
    offer(edges, u, own, keys, wait, queue);
}

// The turn of number u, if it waits.
fn serve(edges: Edges, u: usize, keys: &mut [u32], wait: &mut [bool], queue: &mut Queue)
    requires { Searched edges (length keys.old) (length wait.old) }
    ensures kept { Keeps (graph_of edges.entry) keys.old wait.old keys.new wait.new }
    ensures turn { Turned (length keys.old) u keys.old wait.old keys.new wait.new }
    ensures head { queue.new.head ≡ queue.old.head }
{
    if keys.len() <= u {
        return;
    }
    if !wait[u] {
        return;
    }
    wait[u] = false;
    take_turn(edges, u, keys, wait, queue);
}

// The numbers of the queue have their turns in its order, and so have those that come to it meanwhile.
fn drain(edges: Edges, keys: &mut [u32], wait: &mut [bool], queue: &mut Queue)
    requires lists { Searched edges (length keys.old) (length wait.old) }
    requires lined { Lined (length keys.old) wait.old queue.old.numbers queue.old.end × (queue.old.head ≡ 0) × (0 < queue.old.end) }
    ensures kept { Keeps (graph_of edges.entry) keys.old wait.old keys.new wait.new }
    ensures less { work keys.new wait.new < work keys.old wait.old }
{
    while let Some(u) = queue.pop() {
        serve(edges, u, keys, wait, queue);
    }
}

// What waits is served, and then what waits again, until no number waits.
pub fn settle(edges: Edges, keys: &mut [u32], wait: &mut [bool])
    requires { Searched edges (length keys.old) (length wait.old) }
    ensures kept { Keeps (graph_of edges.entry) keys.old wait.old keys.new wait.new }
    ensures over { (v : ℕ) → v < length keys.old → get_or wait.new v false ≡ false }
{
    let mut queue = Queue::new();
    while queue.refill(&wait[..keys.len()]) {
        drain(edges, keys, wait, &mut queue);
    }
}

// The least key of a path to portal e from each portal, and u32::MAX where there is none.
pub fn keys_to(edges: Edges, e: usize, keys: &mut [u32])
    requires lists { (length keys.old ≡ portal_count edges.measures) × (e < portal_count edges.measures) }
    requires both_ways { ∥ BothWays (graph_of edges) ∥₁ }
    ensures { keys.new ≡ keys_to (graph_of edges.entry) e }
{
    let mut wait = [false; HALL_PORTALS];
    keys.fill(u32::MAX);
    keys[e] = 0;
    wait[e] = true;
    settle(edges, keys, &mut wait);
}
