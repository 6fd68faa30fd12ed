// Costs of cells, by number: document 01, item 2.
ghost use Rattle.std.specs.Prelude.{◌≡◌, ◌<◌, length};
ghost use Rattle.model.specs.Costs.{open_at};

// The cost of a blocked cell.
pub const BLOCKED: u8 = 255;

// Whether a cell of the list is open. It stands beside `open_at` for scaling, which took 20 % more instructions by that one's test of the number.
#[tactic(auto, using(model::specs::CostsRead::open_here))]
pub fn is_open(costs: &[u8], n: usize) -> bool
    requires { n < length costs.now }
    ensures { result ≡ open_at costs.now n }
{
    costs[n] != BLOCKED
}

// Whether a cell is open; a number past the list counts as blocked.
#[tactic(auto, unfolding(model::specs::Costs::open_at))]
pub fn open_at(costs: &[u8], n: usize) -> bool
    ensures { result ≡ open_at costs.now n }
{
    costs.get(n).is_some_and(|cost| *cost != BLOCKED)
}
