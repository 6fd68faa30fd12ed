// Demand 3 of the running code: a hall is built, a list of calls is made in turn on its store, and the last route call answers.
#![tactic(auto)]

pub mod numbers;
#[cfg(test)]
mod tests;

ghost use Rattle.std.specs.Prelude.{◌≡◌, ◌/◌, length};
ghost use Rattle.model.specs.Calls.{measures_of, route_flat};
ghost use Rattle.model.specs.Answers.{RouteAnswers};
ghost use Rattle.audit.specs.Claim.{Demand3};
ghost use Rattle.reach.specs.Reach.{calls_in, reach_into};
ghost use Rattle.journey.specs.Journey.{journey_answer, journey_steps};
ghost use Rattle.journey.specs.Parts.{ClaimsReached};

use hall_route::route;
use model::{Refusal, Route};
use reach::{HallCall, reach};

// A route call that may come last: on a reached hall its answer keeps the claim of demand 3.
#[tactic(auto, using(crate::proofs::Asking::routed_keeps))]
pub fn route_reached(
    st: &[u8],
    source: usize,
    goal: usize,
    steps: &mut [u8],
) -> Result<Option<Route>, Refusal>
    ensures answer { RouteAnswers st.now source goal (length steps.old / 6) result }
    ensures steps { steps.new ≡ route_flat st.now source goal steps.old }
    ensures claim { ClaimsReached st.now source goal (length steps.old / 6) result }
{
    route(st, source, goal, steps)
}

// Builds a hall in a store, makes the calls of a list in turn on it, and asks for a last route. The route calls share one step list, six bytes a step.
pub fn route_after(
    columns: u8,
    rows: u8,
    scale: u8,
    base: &[u8],
    calls: &[HallCall],
    source: usize,
    goal: usize,
    st: &mut [u8],
    steps: &mut [u8],
) -> Result<Option<Route>, Refusal>
    ensures answer { result ≡ journey_answer (measures_of columns rows scale) base.now st.old (calls_in (length steps.old / 6) calls.now) source goal (length steps.old / 6) }
    ensures store { st.new ≡ reach_into (measures_of columns rows scale) base.now st.old (calls_in (length steps.old / 6) calls.now) }
    ensures steps { steps.new ≡ journey_steps (measures_of columns rows scale) base.now st.old (calls_in (length steps.old / 6) calls.now) source goal steps.old }
    ensures demand3 { Demand3 (measures_of columns rows scale) base.now st.old (calls_in (length steps.old / 6) calls.now) source goal (length steps.old / 6) result }
{
    reach(columns, rows, scale, base, calls, st, steps)?;
    route_reached(st, source, goal, steps)
}
