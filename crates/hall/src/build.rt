// The build call.
ghost use Rattle.std.specs.Prelude.{◌≡◌};
ghost use Rattle.model.specs.Numbers.{number_of};
ghost use Rattle.model.specs.Calls.{measures_of, build_number, build_into};

use builder::build::build_hall;
use model::{Measures, Refusal};
use store::check::{check_measures, too_short, wrong_size};

// The refusals of measures, base costs and a store.
fn check_build(m: Measures, base: &[u8], st: &[u8]) -> Result<(), Refusal>
    ensures { number_of result ≡ build_number m base.now st.now }
{
    check_measures(m)?;
    if wrong_size(m, base.len()) {
        return Err(Refusal::BaseLength);
    }
    if too_short(st, m) {
        return Err(Refusal::StoreLength);
    }
    Ok(())
}

// Builds a hall in a store. A refusal leaves the store as it was; bytes past the hall's size stay.
pub fn build(columns: u8, rows: u8, scale: u8, base: &[u8], st: &mut [u8]) -> Result<(), Refusal>
    ensures answer { number_of result ≡ build_number (measures_of columns rows scale) base.now st.old }
    ensures store { st.new ≡ build_into (measures_of columns rows scale) base.now st.old }
{
    let m = Measures {
        columns,
        rows,
        scale,
    };
    check_build(m, base, st)?;
    build_hall(m, base, st);
    Ok(())
}
