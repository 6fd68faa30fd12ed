// The line of a pair: source and goal, then what the route call answered.
ghost use Rattle.std.specs.Prelude.{◌≡◌, ◌++◌, ◌+◌, ◌*◌, ◌≤◌, length};
ghost use Rattle.arrayvec.specs.ArrayString.{array_string_len};
ghost use Rattle.model.specs.Cells.{side_number};
ghost use Rattle.model.specs.FlatSteps.{steps_in};
ghost use Rattle.model.specs.Calls.{routed_steps};
ghost use Rattle.model.specs.Hallroute.{side_letter, window_text, step_text, steps_text};
ghost use Rattle.cards.specs.Line.{route_text, routed_text, line_of};

use crate::numbers::push_number;
use arrayvec::ArrayString;
use fields::sides::SIDES;
use fields::steps::step_in;
use model::{Refusal, Route, RouteStep, Side};

#[tactic(auto, unfolding(laws::specs::Table::tabulate))]
fn side_letter(side: Side) -> &'static str
    ensures { (result.now ≡ side_letter (side_number side)) × (length result.now ≡ 1) }
{
    match side {
        Side::North => "N",
        Side::East => "E",
        Side::South => "S",
        Side::West => "W",
    }
}

// The window of a step, or `-`.
fn push_window<const N: usize>(line: &mut ArrayString<N>, s: &RouteStep)
    requires { array_string_len line.old + 8 ≤ N }
    ensures written { line.new.bytes ≡ line.old.bytes ++ window_text s.now }
    ensures short { array_string_len line.new ≤ array_string_len line.old + 8 }
{
    let Some(side) = SIDES.get(usize::from(s.side)) else {
        line.push_str("-");
        return;
    };
    line.push_str(side_letter(*side));
    push_number(line, s.first);
    line.push_str("-");
    push_number(line, s.last);
}

// Column, row and goal index of a step, and its window.
fn push_step<const N: usize>(line: &mut ArrayString<N>, s: &RouteStep)
    requires { array_string_len line.old + 20 ≤ N }
    ensures written { line.new.bytes ≡ line.old.bytes ++ step_text s.now }
    ensures short { array_string_len line.new ≤ array_string_len line.old + 20 }
{
    line.push_str(" ");
    push_number(line, s.column);
    line.push_str(",");
    push_number(line, s.row);
    line.push_str(":");
    push_number(line, s.goal);
    push_window(line, s);
}

// The first steps of a flat list.
fn push_steps<const N: usize>(line: &mut ArrayString<N>, steps: usize, flat: &[u8])
    requires { (array_string_len line.old + 20 * steps ≤ N) × (6 * steps ≤ length flat.now) }
    ensures written { line.new.bytes ≡ line.old.bytes ++ steps_text (steps_in steps flat.now) }
    ensures short { array_string_len line.new ≤ array_string_len line.old + 20 * steps }
{
    for k in 0..steps {
        push_step(line, &step_in(flat, k));
    }
}

// Steps, leg and run, and then the steps.
fn push_route<const N: usize>(line: &mut ArrayString<N>, route: &Route, flat: &[u8])
    requires { (array_string_len line.old + 20 * route.now.steps + 33 ≤ N) × (6 * route.now.steps ≤ length flat.now) }
    ensures written { line.new.bytes ≡ line.old.bytes ++ route_text route.now flat.now }
    ensures short { array_string_len line.new ≤ array_string_len line.old + 20 * route.now.steps + 33 }
{
    line.push_str(" ");
    push_number(line, route.steps);
    line.push_str(" ");
    push_number(line, route.leg);
    line.push_str(" ");
    push_number(line, route.run);
    push_steps(line, route.steps as usize, flat);
}

// A route, `none`, or `no` and a refusal's number.
fn push_answer<const N: usize>(
    line: &mut ArrayString<N>,
    answer: Result<Option<Route>, Refusal>,
    flat: &[u8],
)
    requires { (array_string_len line.old + 20 * routed_steps answer + 33 ≤ N) × (6 * routed_steps answer ≤ length flat.now) }
    ensures written { line.new.bytes ≡ line.old.bytes ++ routed_text answer flat.now }
    ensures short { array_string_len line.new ≤ array_string_len line.old + 20 * routed_steps answer + 33 }
{
    match answer {
        Ok(Some(route)) => push_route(line, &route, flat),
        Ok(None) => line.push_str(" none"),
        Err(refusal) => {
            line.push_str(" no ");
            push_number(line, refusal.number());
        }
    }
}

// The line of a pair. The steps are read off the flat list that the route call wrote.
pub fn push_line<const N: usize>(
    line: &mut ArrayString<N>,
    source: usize,
    goal: usize,
    answer: Result<Option<Route>, Refusal>,
    flat: &[u8],
)
    requires { (array_string_len line.old + 20 * routed_steps answer + 80 ≤ N) × (6 * routed_steps answer ≤ length flat.now) }
    ensures { line.new.bytes ≡ line.old.bytes ++ line_of source goal answer flat.now }
{
    push_number(line, source);
    line.push_str(" ");
    push_number(line, goal);
    push_answer(line, answer, flat);
    line.push_str("\n");
}
