// Build and the calls of a list that is lent as numbers, three a call.
ghost use Rattle.std.specs.Prelude.{◌≡◌, ◌/◌, length};
ghost use Rattle.model.specs.Numbers.{number_of};
ghost use Rattle.model.specs.Calls.{measures_of, build_number, store_after};
ghost use Rattle.reach.specs.Reach.{calls_in_numbers, steps_after, reach_into, reach_steps, Reaches};

use super::{HallCall, make_call};
use hall::build::build;
use model::Refusal;

// Makes the calls of a list in turn, three numbers a call.
fn make_numbers(calls: &[u32], st: &mut [u8], steps: &mut [u8])
    ensures store { st.new ≡ store_after st.old (calls_in_numbers (length steps.old / 6) calls.now) }
    ensures steps { steps.new ≡ steps_after st.old (calls_in_numbers (length steps.old / 6) calls.now) steps.old }
{
    for numbers in calls.chunks_exact(3) {
        let call = HallCall::from([numbers[0], numbers[1], numbers[2]]);
        make_call(call, st, steps);
    }
}

// Builds a hall in a store and makes the calls of a list in turn on it. Where build refuses, no call is made.
pub fn reach_numbers(
    columns: u8,
    rows: u8,
    scale: u8,
    base: &[u8],
    calls: &[u32],
    st: &mut [u8],
    steps: &mut [u8],
) -> Result<(), Refusal>
    ensures answer { number_of result ≡ build_number (measures_of columns rows scale) base.now st.old }
    ensures store { st.new ≡ reach_into (measures_of columns rows scale) base.now st.old (calls_in_numbers (length steps.old / 6) calls.now) }
    ensures steps { steps.new ≡ reach_steps (measures_of columns rows scale) base.now st.old (calls_in_numbers (length steps.old / 6) calls.now) steps.old }
    ensures reached { Reaches (measures_of columns rows scale) base.now st.old (calls_in_numbers (length steps.old / 6) calls.now) st.new }
{
    build(columns, rows, scale, base, st)?;
    make_numbers(calls, st, steps);
    Ok(())
}
