// The route call with a lent list of step records: document 01, "Steps go to a lent list of step records".
#![tactic(auto)]

ghost use Rattle.std.specs.Prelude.{◌≡◌, ◌++◌, ◌*◌, ◌≤◌, length, drop};
ghost use Rattle.model.specs.FlatSteps.{steps_in};
ghost use Rattle.model.specs.Calls.{route_steps};
ghost use Rattle.model.specs.Answers.{RouteAnswers};
ghost use Rattle.records.specs.Routing.{Flatly};

use fields::steps::step_in;
use hall_route::{route, steps_of};
use model::{Refusal, Route, RouteStep};

// The first n steps of a flat list go to the first n records; the others stay.
fn write_records(flat: &[u8], n: usize, list: &mut [RouteStep])
    requires { (n ≤ length list.old) × (6 * n ≤ length flat.now) }
    ensures { list.new ≡ steps_in n flat.now ++ drop n list.old }
{
    for i in 0..n {
        list[i] = step_in(flat, i);
    }
}

// The route call for so many records, its steps in front of a flat list, which has room for the 1,001 that a route has at most.
fn flat_route(
    st: &[u8],
    source: usize,
    goal: usize,
    records: usize,
    flat: &mut [u8; 6006],
) -> Result<Option<Route>, Refusal>
    ensures answer { RouteAnswers st.now source goal records result }
    ensures steps { Flatly st.now source goal records result flat.new }
{
    let bytes = 6 * records.min(1001);
    route(st, source, goal, &mut flat[..bytes])
}

// Finds the route from one cell to another and writes its steps to the first records of a list. A refusal and "none" leave the list as it was.
pub fn route_records(
    st: &[u8],
    source: usize,
    goal: usize,
    list: &mut [RouteStep],
) -> Result<Option<Route>, Refusal>
    ensures answer { RouteAnswers st.now source goal (length list.old) result }
    ensures steps { list.new ≡ route_steps st.now source goal list.old }
{
    let mut flat = [0; 6006];
    let found = flat_route(st, source, goal, list.len(), &mut flat)?;
    write_records(&flat, steps_of(found), list);
    Ok(found)
}
