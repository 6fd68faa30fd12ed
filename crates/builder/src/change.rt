// What change does to a store that passed the check, at a cell of its floor.
ghost use Rattle.std.specs.Prelude.{◌≡◌, true, [], ◌+◌, ◌*◌, ◌≤◌, ◌<◌, length, get_or};
ghost use Rattle.model.specs.Cells.{side_number};
ghost use Rattle.model.specs.Sectors.{sectors, cells};
ghost use Rattle.model.specs.Numbers.{number_of};
ghost use Rattle.model.specs.Accepted.{Accepted};
ghost use Rattle.model.specs.Windows.{window_count};
ghost use Rattle.model.specs.Change.{is_nearby, remarked, changed, exceeds_at, exceeds};
ghost use Rattle.model.specs.Nearby.{at_nearby};
ghost use Rattle.store.specs.Layout.{hall_of};
ghost use Rattle.store.specs.Stored.{stored};
ghost use Rattle.builder.specs.Around.{sector_fresh, sector_exceeds, place_exceeds};
ghost use Rattle.builder.specs.Marks.{Small};
ghost use Rattle.builder.specs.Parts.{Changeable, altered_number, altered_into};

use crate::marks::{MOST_SIDES, take_marks};
use fields::sectors::{MOST_CELLS, cells, neighbour, sectors};
use fields::sides::{SIDES, opposite};
use model::{Measures, Refusal, Side};
use portal::marks::side_mark;
use portal::runs::window_count;
use sector_cost::nearby::{PLACES, is_nearby, is_there, nearby, nearby_sector};
use sector_cost::rescale;
use store::layout::{Store, write_hall};
use store::opened::Opened;

// Marks the four sides of sector s afresh.
fn remark_sector(m: Measures, costs: &[u8], s: usize, marks: &mut [u16])
    requires { Accepted m × (s < sectors m) × (length marks.old ≡ sectors m * 4) }
    ensures { marks.new ≡ sector_fresh m costs.now s marks.old }
{
    for (i, side) in SIDES.iter().enumerate() {
        marks[s * 4 + i] = side_mark(m, costs, s, *side);
    }
}

// Marks the sectors around sector t afresh. Other sectors keep their marks.
#[tactic(auto, using(laws::specs::Fold::counting, model::specs::Nearby::nearby_lt))]
fn remark(m: Measures, costs: &[u8], t: usize, marks: &mut [u16])
    requires { Accepted m × (t < sectors m) × (length marks.old ≡ sectors m * 4) }
    ensures { marks.new ≡ remarked m costs.now t marks.old }
{
    for k in 0..PLACES {
        if let Some(s) = nearby_sector(m, t, k) {
            remark_sector(m, costs, s, marks);
        }
    }
}

// How many windows a side of sector s has; one past the list has none.
fn windows_on(marks: &[u16], s: usize, side: Side) -> usize
    requires { Small marks.now × (s ≤ 20000) }
    ensures { result ≡ window_count (get_or marks.now (s * 4 + side_number side) 0) }
{
    marks
        .get(s * 4 + side as usize)
        .map_or(0, |mark| window_count(*mark))
}

// Whether a side of sector s, one of those marked afresh, leads to a sector that is not and has fewer windows on its facing side.
fn exceeds_at(m: Measures, marks: &[u16], t: usize, s: usize, side: Side) -> bool
    requires { Accepted m × Small marks.now × (t < sectors m) × (s < sectors m) × (is_nearby m t s ≡ true) }
    ensures { result ≡ exceeds_at (hall_of m [] [] marks.now) t s side }
{
    neighbour(m, s, side).is_some_and(|other| {
        !is_nearby(m, t, other)
            && windows_on(marks, other, opposite(side)) < windows_on(marks, s, side)
    })
}

// Whether any side of sector s does.
fn sector_exceeds(m: Measures, marks: &[u16], t: usize, s: usize) -> bool
    requires { Accepted m × Small marks.now × (t < sectors m) × (s < sectors m) × (is_nearby m t s ≡ true) }
    ensures { result ≡ sector_exceeds (hall_of m [] [] marks.now) t s }
{
    SIDES.iter().any(|side| exceeds_at(m, marks, t, s, *side))
}

// Whether any side of the sector at place k around t does, if there is one.
#[tactic(auto, using(model::specs::Nearby::nearby_lt, crate::proofs::Around::place_near))]
fn place_exceeds(m: Measures, marks: &[u16], t: usize, k: usize) -> bool
    requires { Accepted m × Small marks.now × (t < sectors m) × (k < 9) }
    ensures { result ≡ place_exceeds (hall_of m [] [] marks.now) t k }
{
    is_there(m, t, k) && sector_exceeds(m, marks, t, nearby(m, t, k))
}

// Whether any side of the hall does. Only sides of the sectors around t can.
fn any_exceeds(m: Measures, marks: &[u16], t: usize) -> bool
    requires { Accepted m × Small marks.now × (t < sectors m) }
    ensures { result ≡ exceeds (hall_of m [] [] marks.now) t }
{
    (0..PLACES).any(|k| place_exceeds(m, marks, t, k))
}

// The hall of a store after a change, in lent lists.
fn change_lists(
    hall: &Opened<'_>,
    n: usize,
    cost: u8,
    base: &mut [u8],
    scaled: &mut [u8],
    marks: &mut [u16],
)
    requires { (n < cells hall.now.store.measures) × (length base.old ≡ cells hall.now.store.measures) × (length scaled.old ≡ cells hall.now.store.measures) × (length marks.old ≡ sectors hall.now.store.measures * 4) }
    ensures { hall_of hall.now.store.measures base.new scaled.new marks.new ≡ changed (stored hall.now) n cost }
{
    let store = hall.store;
    let m = store.measures;
    base.copy_from_slice(store.base());
    base[n] = cost;
    scaled.copy_from_slice(store.scaled());
    rescale(m, base, n / 100, scaled);
    take_marks(&store, marks);
    remark(m, scaled, n / 100, marks);
}

// Changes a hall, and writes it into the store unless that is refused.
pub fn change_hall(m: Measures, n: usize, cost: u8, st: &mut [u8]) -> Result<(), Refusal>
    requires { Changeable m st.old n }
    ensures { (number_of result ≡ altered_number st.old n cost) × (st.new ≡ altered_into st.old n cost) }
{
    let mut base = [0u8; MOST_CELLS];
    let mut scaled = [0u8; MOST_CELLS];
    let mut marks = [0u16; MOST_SIDES];
    let base = &mut base[..cells(m)];
    let scaled = &mut scaled[..cells(m)];
    let marks = &mut marks[..sectors(m) * 4];
    let hall = Opened {
        store: Store {
            measures: m,
            bytes: st,
        },
    };
    change_lists(&hall, n, cost, base, scaled, marks);
    if any_exceeds(m, marks, n / 100) {
        return Err(Refusal::MoreWindows);
    }
    write_hall(m, base, scaled, marks, st);
    Ok(())
}
