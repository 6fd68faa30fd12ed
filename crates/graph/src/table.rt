// The weights of a hall's edges, with what a search needs to know of them.
ghost use Rattle.std.specs.Prelude.{◌≡◌, ℕ, ◌≤◌, ◌<◌, length, get_or};
ghost use Rattle.laws.specs.Graph.{Sound, BothWays};
ghost use Rattle.model.specs.Sectors.{sectors};
ghost use Rattle.model.specs.Portals.{arc_count};
ghost use Rattle.store.specs.Stored.{stored};
ghost use Rattle.graph.specs.EdgeTable.{edge_table, table_graph};

use crate::edges::fill_edges;
use model::Measures;
use store::opened::Opened;

// The weights of the edges of a hall of these measures by arc number, 0 where there is no edge: edges join numbers of the hall and weigh no more than 256 moves.
#[derive(Clone, Copy)]
pub struct Edges<'a> {
    pub measures: Measures,
    pub weights: &'a [u32],
    ghost few: { sectors measures ≤ 100 },
    ghost few_rows: { measures.rows ≤ 10 },
    ghost long: { length weights.now ≡ arc_count measures },
    ghost sound: { Sound (table_graph measures weights.now) },
    ghost light: { (e : ℕ) → e < arc_count measures → get_or weights.now e 0 ≤ 1048576 },
}

impl<'a> Edges<'a> {
    // The edges of the portal graph of a store, in a lent list: they lead both ways.
    pub fn of_store(hall: &Opened<'_>, table: &'a mut [u32]) -> Edges<'a>
        requires { length table.old ≡ arc_count hall.now.store.measures }
        ensures measures { result.measures ≡ hall.now.store.measures }
        ensures weights { result.weights.now ≡ edge_table (stored hall.now) }
        ensures both_ways { ∥ BothWays (table_graph result.measures result.weights.now) ∥₁ }
    {
        fill_edges(hall, table);
        Edges {
            measures: hall.store.measures,
            weights: table,
        }
    }
}
