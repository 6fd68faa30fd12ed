// Demand 3 of the running code where the list of calls is lent as numbers, three a call.
ghost use Rattle.std.specs.Prelude.{◌≡◌, ◌/◌, length};
ghost use Rattle.model.specs.Calls.{measures_of};
ghost use Rattle.audit.specs.Claim.{Demand3};
ghost use Rattle.reach.specs.Reach.{calls_in_numbers, reach_into};
ghost use Rattle.journey.specs.Journey.{journey_answer, journey_steps};

use super::route_reached;
use model::{Refusal, Route};
use reach::numbers::reach_numbers;

// Builds a hall in a store, makes the calls of a list in turn on it, and asks for a last route. The route calls share one step list, six bytes a step.
pub fn route_after_numbers(
    columns: u8,
    rows: u8,
    scale: u8,
    base: &[u8],
    calls: &[u32],
    source: usize,
    goal: usize,
    st: &mut [u8],
    steps: &mut [u8],
) -> Result<Option<Route>, Refusal>
    ensures answer { result ≡ journey_answer (measures_of columns rows scale) base.now st.old (calls_in_numbers (length steps.old / 6) calls.now) source goal (length steps.old / 6) }
    ensures store { st.new ≡ reach_into (measures_of columns rows scale) base.now st.old (calls_in_numbers (length steps.old / 6) calls.now) }
    ensures steps { steps.new ≡ journey_steps (measures_of columns rows scale) base.now st.old (calls_in_numbers (length steps.old / 6) calls.now) source goal steps.old }
    ensures demand3 { Demand3 (measures_of columns rows scale) base.now st.old (calls_in_numbers (length steps.old / 6) calls.now) source goal (length steps.old / 6) result }
{
    reach_numbers(columns, rows, scale, base, calls, st, steps)?;
    route_reached(st, source, goal, steps)
}
