// A hall is built, and a list of calls is made in turn on its store: what a claim about a hall "built, or changed since" begins with.
#![tactic(auto)]

pub mod numbers;
#[cfg(test)]
mod tests;

ghost use Rattle.std.specs.Prelude.{◌≡◌, ◌/◌, length, get_or};
ghost use Rattle.model.specs.Numbers.{number_of};
ghost use Rattle.model.specs.Calls.{measures_of, build_number, store_after_call, store_after};
ghost use Rattle.reach.specs.Reach.{hall_call, call_of, calls_in, steps_after_call, steps_after, reach_into, reach_steps, Reaches};

use hall::build::build;
use hall::change::change;
use hall_route::route;
use model::Refusal;

// A call that is made on a store: a change of a cell's cost, or a route call.
#[derive(Clone, Copy, Debug, PartialEq, Eq)]
pub enum HallCall {
    Change { cell: usize, cost: u8 },
    Route { source: usize, goal: usize },
}

// A call by three numbers: kind 0 changes the cell of floor number a to the low byte of b, any other kind asks for a route from a to b.
impl From<[u32; 3]> for HallCall {
    ghost from_gives = { λ numbers call. call ≡ hall_call (get_or numbers 0 0) (get_or numbers 1 0) (get_or numbers 2 0) };

    #[tactic(auto, unfolding(crate::specs::Reach::hall_call))]
    fn from([kind, a, b]: [u32; 3]) -> HallCall {
        if kind == 0 {
            HallCall::Change {
                cell: a as usize,
                cost: b.to_le_bytes()[0],
            }
        } else {
            HallCall::Route {
                source: a as usize,
                goal: b as usize,
            }
        }
    }
}

// Makes one call. What it answers is not kept.
fn make_call(call: HallCall, st: &mut [u8], steps: &mut [u8])
    ensures store { st.new ≡ store_after_call st.old (call_of (length steps.old / 6) call) }
    ensures steps { steps.new ≡ steps_after_call st.old (call_of (length steps.old / 6) call) steps.old }
{
    match call {
        HallCall::Change { cell, cost } => {
            let _ = change(st, cell, cost);
        }
        HallCall::Route { source, goal } => {
            let _ = route(st, source, goal, steps);
        }
    }
}

// Makes the calls of a list in turn.
fn make_calls(calls: &[HallCall], st: &mut [u8], steps: &mut [u8])
    ensures store { st.new ≡ store_after st.old (calls_in (length steps.old / 6) calls.now) }
    ensures steps { steps.new ≡ steps_after st.old (calls_in (length steps.old / 6) calls.now) steps.old }
{
    for call in calls {
        make_call(*call, st, steps);
    }
}

// Builds a hall in a store and makes the calls of a list in turn on it. Where build refuses, no call is made.
pub fn reach(
    columns: u8,
    rows: u8,
    scale: u8,
    base: &[u8],
    calls: &[HallCall],
    st: &mut [u8],
    steps: &mut [u8],
) -> Result<(), Refusal>
    ensures answer { number_of result ≡ build_number (measures_of columns rows scale) base.now st.old }
    ensures store { st.new ≡ reach_into (measures_of columns rows scale) base.now st.old (calls_in (length steps.old / 6) calls.now) }
    ensures steps { steps.new ≡ reach_steps (measures_of columns rows scale) base.now st.old (calls_in (length steps.old / 6) calls.now) steps.old }
    ensures reached { Reaches (measures_of columns rows scale) base.now st.old (calls_in (length steps.old / 6) calls.now) st.new }
{
    build(columns, rows, scale, base, st)?;
    make_calls(calls, st, steps);
    Ok(())
}
