// The route call, for every input: document 01, "Calls and their numbers, in order".
#![tactic(auto)]

ghost use Rattle.std.specs.Prelude.{◌≡◌, ◌/◌, length};
ghost use Rattle.model.specs.Calls.{routed_steps, route_flat};
ghost use Rattle.model.specs.Answers.{RouteAnswers};

use fields::sectors::cells;
use hall::check::check_store;
use model::{Refusal, Route};
use route::find::find_path;

// How many steps were found.
pub fn steps_of(found: Option<Route>) -> usize
    ensures { result ≡ routed_steps (Ok found) }
{
    found.map_or(0, |route| route.steps as usize)
}

// Finds the route from one cell to another, its steps six bytes each: column, row, goal, side, first and last cell. A refusal and "none" leave the list as it was.
pub fn route(
    st: &[u8],
    source: usize,
    goal: usize,
    list: &mut [u8],
) -> Result<Option<Route>, Refusal>
    ensures answer { RouteAnswers st.now source goal (length list.old / 6) result }
    ensures steps { list.new ≡ route_flat st.now source goal list.old }
{
    let hall = check_store(st)?;
    let size = cells(hall.store.measures);
    if size <= source {
        return Err(Refusal::Source);
    }
    if size <= goal {
        return Err(Refusal::Goal);
    }
    let found = find_path(&hall, source, goal, list);
    if list.len() / 6 < steps_of(found) {
        return Err(Refusal::StepRoom);
    }
    Ok(found)
}
