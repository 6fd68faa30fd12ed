// What build does once it is not refused.
ghost use Rattle.std.specs.Prelude.{◌≡◌, ◌*◌, length};
ghost use Rattle.model.specs.Sectors.{sectors, cells};
ghost use Rattle.model.specs.Store.{written};
ghost use Rattle.model.specs.Calls.{built};
ghost use Rattle.builder.specs.Parts.{Buildable};

use crate::marks::{MOST_SIDES, mark_all};
use fields::sectors::{MOST_CELLS, cells, sectors};
use model::Measures;
use sector_cost::scale_all_costfields;
use store::layout::write_hall;

// Scales and marks a hall, and writes it into a store.
#[tactic(auto, unfolding(model::specs::Calls::built))]
pub fn build_hall(m: Measures, base: &[u8], st: &mut [u8])
    requires { Buildable m base.now st.old }
    ensures { st.new ≡ written (built m base.now) st.old }
{
    let mut scaled = [0u8; MOST_CELLS];
    let mut marks = [0u16; MOST_SIDES];
    let scaled = &mut scaled[..cells(m)];
    let marks = &mut marks[..sectors(m) * 4];
    scale_all_costfields(m, base, scaled);
    mark_all(m, scaled, marks);
    write_hall(m, base, scaled, marks, st);
}
