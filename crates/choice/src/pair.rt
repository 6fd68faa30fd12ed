// The pair of a start and an end portal with the least run; of equals, the one that comes first start by start.
// In a list of keys u32::MAX stands for no path, since the laws of the search have it as a number there.
ghost use Rattle.std.specs.Prelude.{◌≡◌, Option, Some, None, ℕ, ◌+◌, ◌*◌, ◌≤◌, ◌<◌, IfSome, MatchOption, length, get_or};
ghost use Rattle.std.specs.Option.{unwrap_or};
ghost use Rattle.laws.specs.Graph.{BothWays};
ghost use Rattle.laws.specs.FirstLeast.{Foremost};
ghost use Rattle.model.specs.Portals.{sector_portals, hall_portals, portal_count};
ghost use Rattle.model.specs.LeastPath.{unlinked};
ghost use Rattle.graph.specs.Edges.{graph_of};
ghost use Rattle.choice.specs.Choosing.{run_for, sector_pairs, pair_run};

use crate::ends::keys_to_goal;
use crate::places::Pair;
use graph::edges::KEY_STEP;
use graph::portals::SECTOR_PORTALS;
use graph::table::Edges;
use search::keys::keys_to;

// The run of a pair by the key of its path, its leg and the moves from its end to the goal, if it is a pair.
fn run_of(key: u32, leg: Option<u8>, last: Option<u8>) -> Option<u32>
    ensures { unwrap_or result unlinked ≡ run_for key leg last }
{
    leg?;
    let last = last?;
    if key == u32::MAX {
        return None;
    }
    Some(key / KEY_STEP + u32::from(last))
}

// The first of twenty places with the least run, by what each place's run is, if it has one.
fn first_place<F: Fn(usize) -> Option<u32>>(run: F) -> Option<usize>
    requires { (c : ℕ) → c < sector_portals → F.pre run c }
    ensures first { (key : ℕ → ℕ) → ((c : ℕ) (r : Option ℕ) → c < sector_portals → F.post run c r → unwrap_or r unlinked ≡ key c) → Foremost key unlinked sector_portals (unwrap_or result sector_portals) }
    ensures low { IfSome result (λ c. c < sector_portals) }
{
    let mut best = None;
    let mut least = u32::MAX;
    for c in 0..SECTOR_PORTALS {
        if let Some(run) = run(c) {
            if run < least {
                least = run;
                best = Some(c);
            }
        }
    }
    best
}

// The first pair of the least run, start by start: from the sector whose first number is p to the one whose first number is q.
// The start is the first of least cost to the goal over any end, whose moves the keys count. The end is the first of least run from it.
pub fn choose_pair(
    edges: Edges,
    p: usize,
    q: usize,
    legs: &[Option<u8>; SECTOR_PORTALS],
    lasts: &[Option<u8>; SECTOR_PORTALS],
    keys: &mut [u32],
) -> Option<Pair>
    requires lists { length keys.old ≡ portal_count edges.measures }
    requires inside { (p + sector_portals ≤ portal_count edges.measures) × (q + sector_portals ≤ portal_count edges.measures) }
    requires both_ways { ∥ BothWays (graph_of edges) ∥₁ }
    ensures pair { let first = Foremost (pair_run (graph_of edges.entry) legs.now lasts.now p q) unlinked sector_pairs in MatchOption result (first sector_pairs) (λ pair. first (pair.start * sector_portals + pair.end)) }
    ensures moves { IfSome result (λ pair. (get_or legs.now pair.start None ≡ Some pair.leg) × (get_or lasts.now pair.end None ≡ Some pair.last)) }
{
    keys_to_goal(edges, q, lasts, keys);
    let start = first_place(|c| run_of(keys[p + c], legs[c], Some(0)))?;
    keys_to(edges, p + start, keys);
    let end = first_place(|c| run_of(keys[q + c], Some(0), lasts[c]))?;
    Some(Pair {
        start,
        end,
        leg: legs[start]?,
        last: lasts[end]?,
    })
}
