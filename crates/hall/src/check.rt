// The store check, which opens each call on a store.
ghost use Rattle.std.specs.Prelude.{◌≡◌, IfOk};
ghost use Rattle.model.specs.Numbers.{number_of};
ghost use Rattle.model.specs.Calls.{check_number};

use model::Refusal;
use store::check::{any_bad_mark, check_measures, too_short};
use store::layout::{Store, fourth_byte};
use store::opened::Opened;
use store::reading::measures_at;

// The store, once it has passed the check.
pub fn check_store(st: &[u8]) -> Result<Opened<'_>, Refusal>
    ensures number { number_of result ≡ check_number st.now }
    ensures opened { IfOk result (λ hall. hall.store.bytes.now ≡ st.now) }
{
    if st.len() < 4 {
        return Err(Refusal::StoreLength);
    }
    let measures = measures_at(st);
    check_measures(measures)?;
    if 0 < fourth_byte(st) {
        return Err(Refusal::FourthByte);
    }
    if too_short(st, measures) {
        return Err(Refusal::StoreLength);
    }
    let store = Store {
        measures,
        bytes: st,
    };
    if any_bad_mark(&store) {
        return Err(Refusal::Mark);
    }
    Ok(Opened { store })
}
