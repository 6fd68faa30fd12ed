// The tests of the store check, and those that build and read file share with it.
ghost use Rattle.std.specs.Prelude.{◌≡◌, not, ◌+◌, ◌*◌, ◌<◌, ltb, eqb, length};
ghost use Rattle.laws.specs.Search.{any};
ghost use Rattle.model.specs.Cells.{side_number};
ghost use Rattle.model.specs.Sectors.{sectors, cells};
ghost use Rattle.model.specs.Store.{size_of};
ghost use Rattle.model.specs.Accepted.{outside, bad_sectors, bad_scale, Accepted};
ghost use Rattle.model.specs.Numbers.{number_of};
ghost use Rattle.model.specs.Calls.{bad_mark};
ghost use Rattle.store.specs.Checks.{measures_number};
ghost use Rattle.store.specs.Ends.{is_above, end_line, line_mark, Within, side_ends};
ghost use Rattle.store.specs.Stored.{held};

use crate::layout::{Store, size_of};
use fields::sectors::{cells, sectors};
use fields::sides::SIDES;
use model::{Measures, Refusal, Side};

#[tactic(auto, using(crate::proofs::Ranges::outside_is))]
fn is_outside(low: u8, high: u8, n: u8) -> bool
    ensures { result ≡ outside low high n }
{
    !(low..=high).contains(&n)
}

// Whether columns or rows are outside 1 to 10.
#[tactic(auto, unfolding(model::specs::Accepted::bad_sectors))]
fn bad_sectors(m: Measures) -> bool
    ensures { result ≡ bad_sectors m }
{
    is_outside(1, 10, m.columns) || is_outside(1, 10, m.rows)
}

// Whether the scale is outside 1 to 9.
#[tactic(auto, unfolding(model::specs::Accepted::bad_scale))]
fn bad_scale(m: Measures) -> bool
    ensures { result ≡ bad_scale m }
{
    is_outside(1, 9, m.scale)
}

// The refusals of measures.
#[tactic(auto, using(laws::specs::Ladder::ladder), unfolding(crate::specs::Checks::measures_number))]
pub fn check_measures(m: Measures) -> Result<(), Refusal>
    ensures { number_of result ≡ measures_number m }
{
    if bad_sectors(m) {
        return Err(Refusal::Sectors);
    }
    if bad_scale(m) {
        return Err(Refusal::Scale);
    }
    Ok(())
}

// Whether a list of costs is not as long as the hall has cells.
pub fn wrong_size(m: Measures, size: usize) -> bool
    ensures { result ≡ not (eqb size (cells m)) }
{
    size != cells(m)
}

// Whether a store has not the bytes that a hall takes.
pub fn too_short(st: &[u8], m: Measures) -> bool
    ensures { result ≡ ltb (length st.now) (size_of m) }
{
    st.len() < size_of(m)
}

// Whether mark k of a store is above a limit.
fn is_above(store: &Store<'_>, limit: u16, k: usize) -> bool
    requires { k < sectors store.now.measures * 4 }
    ensures { result ≡ is_above (held store.now).marks limit k }
{
    limit < store.mark(k)
}

// Whether any mark is above 1,023. A loop: by `any` a store check takes 2,274 instructions, and so 1,371.
fn any_large(store: &Store<'_>) -> bool
    ensures { result ≡ any (is_above (held store.now).marks 1023) (sectors store.now.measures * 4) }
{
    for k in 0..sectors(store.measures) * 4 {
        if is_above(store, 1023, k) {
            return true;
        }
    }
    false
}

// The sectors at a side's end of the floor: the first, what leads from each to the next, and how many there are.
#[derive(Clone, Copy)]
struct EndLine {
    from: usize,
    step: usize,
    count: usize,
}

#[tactic(auto, using(crate::specs::Ends::line_is), unfolding(crate::specs::Ends::end_line))]
fn end_line(m: Measures, side: Side) -> EndLine
    requires { Accepted m }
    ensures { result ≡ end_line m side }
{
    let columns = usize::from(m.columns);
    let rows = usize::from(m.rows);
    match side {
        Side::North => EndLine {
            from: 0,
            step: rows,
            count: columns,
        },
        Side::East => EndLine {
            from: (columns - 1) * rows,
            step: 1,
            count: rows,
        },
        Side::South => EndLine {
            from: rows - 1,
            step: rows,
            count: columns,
        },
        Side::West => EndLine {
            from: 0,
            step: 1,
            count: rows,
        },
    }
}

// Whether a mark on a side is not 0 in a line of sectors.
fn any_in(store: &Store<'_>, line: EndLine, side: Side) -> bool
    requires { Within store.now.measures line }
    ensures { result ≡ any (line_mark (held store.now).marks line (side_number side)) line.count }
{
    (0..line.count).any(|i| is_above(store, 0, (line.from + i * line.step) * 4 + side as usize))
}

// Whether one is in the line of sectors at the side's end of the floor.
#[tactic(auto, using(crate::specs::Ends::end_within, crate::specs::Ends::side_found, model::specs::Sides::side_number_lem))]
fn any_at_end(store: &Store<'_>, side: Side) -> bool
    ensures { result ≡ side_ends store.now.measures (held store.now).marks (side_number side) }
{
    any_in(store, end_line(store.measures, side), side)
}

// Whether one is at the end of any side.
fn any_end(store: &Store<'_>) -> bool
    ensures { result ≡ any (side_ends store.now.measures (held store.now).marks) 4 }
{
    SIDES.iter().any(|side| any_at_end(store, *side))
}

// Whether any mark of a store is above 1,023, or not 0 on a side without neighbour, which is at the side's end of the floor.
#[tactic(auto, using(crate::specs::Ends::bad_any))]
pub fn any_bad_mark(store: &Store<'_>) -> bool
    ensures { result ≡ any (bad_mark store.now.measures (held store.now).marks) (sectors store.now.measures * 4) }
{
    any_large(store) || any_end(store)
}
