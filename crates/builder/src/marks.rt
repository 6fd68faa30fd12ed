// Lists of marks: those of a store, and those that the costs give.
ghost use Rattle.std.specs.Prelude.{◌≡◌, ◌*◌, length};
ghost use Rattle.model.specs.Sectors.{sectors};
ghost use Rattle.model.specs.Accepted.{Accepted};
ghost use Rattle.model.specs.Windows.{marks_of};
ghost use Rattle.store.specs.Stored.{held};

use fields::sides::SIDES;
use model::Measures;
use portal::marks::side_mark;
use store::layout::Store;

// The most sides that a hall has.
pub const MOST_SIDES: usize = 400;

// Takes all marks over from a store.
pub fn take_marks(store: &Store<'_>, marks: &mut [u16])
    requires { length marks.old ≡ sectors store.now.measures * 4 }
    ensures { marks.new ≡ (held store.now).marks }
{
    for (k, mark) in marks.iter_mut().enumerate() {
        *mark = store.mark(k);
    }
}

// Marks all sides afresh.
pub fn mark_all(m: Measures, costs: &[u8], marks: &mut [u16])
    requires { Accepted m × (length marks.old ≡ sectors m * 4) }
    ensures { marks.new ≡ marks_of m costs.now }
{
    for (k, mark) in marks.iter_mut().enumerate() {
        *mark = side_mark(m, costs, k / 4, SIDES[k % 4]);
    }
}
