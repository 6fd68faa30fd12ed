// The change call.
ghost use Rattle.std.specs.Prelude.{◌≡◌};
ghost use Rattle.model.specs.Numbers.{number_of};
ghost use Rattle.model.specs.Calls.{change_number, change_into};

use crate::check::check_store;
use builder::change::change_hall;
use fields::sectors::cells;
use model::Refusal;

// Changes the cost of a cell. A refusal leaves the store as it was; bytes past the hall's size stay.
pub fn change(st: &mut [u8], n: usize, cost: u8) -> Result<(), Refusal>
    ensures answer { number_of result ≡ change_number st.old n cost }
    ensures store { st.new ≡ change_into st.old n cost }
{
    let hall = check_store(st)?;
    let m = hall.store.measures;
    if cells(m) <= n {
        return Err(Refusal::FloorNumber);
    }
    change_hall(m, n, cost, st)
}
