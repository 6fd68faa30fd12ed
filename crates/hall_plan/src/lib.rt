// The plan call, for every input: document 01, "Calls and their numbers, in order". Tests are joined by |, which looks at both sides, so that each refusal is one test as in 01.
#![tactic(auto)]

ghost use Rattle.std.specs.Prelude.{◌≡◌};
ghost use Rattle.model.specs.Numbers.{number_of};
ghost use Rattle.model.specs.Calls.{value_number};
ghost use Rattle.model.specs.Answers.{PlanAnswers};

use dimensions::{not_finite, whole_near};
use model::{Dimensions, Measures, Refusal};

// Refusals 1 to 4, which look at each value by itself.
fn check_values(d: Dimensions) -> Result<(), Refusal>
    ensures { number_of result ≡ value_number d }
{
    if not_finite(d) {
        return Err(Refusal::NotFinite);
    }
    if (d.size_x <= 0.0) | (d.size_y <= 0.0) {
        return Err(Refusal::Size);
    }
    if d.radius <= 0.0 {
        return Err(Refusal::Radius);
    }
    if d.unit <= 0.0 {
        return Err(Refusal::Unit);
    }
    Ok(())
}

// A hall's columns, rows and scale from its sizes, unit and radius, or the first refusal that applies.
pub fn plan(d: Dimensions) -> Result<Measures, Refusal>
    ensures { PlanAnswers d result }
{
    check_values(d)?;
    let sector_len = d.unit * 10.0;
    let sector_columns = d.size_x / sector_len;
    let sector_rows = d.size_y / sector_len;
    if (sector_columns < 1.0) | (sector_rows < 1.0) {
        return Err(Refusal::BelowOneSector);
    }
    if d.radius >= sector_len {
        return Err(Refusal::RadiusOfSector);
    }
    let scale = whole_near(d.radius / d.unit).up;
    if scale >= 10 {
        return Err(Refusal::ScaleOfTen);
    }
    if scale == 0 {
        return Err(Refusal::ScaleOfZero);
    }
    let columns = whole_near(sector_columns).down;
    let rows = whole_near(sector_rows).down;
    if (columns > 10) | (rows > 10) {
        return Err(Refusal::AboveTenSectors);
    }
    Ok(Measures {
        columns,
        rows,
        scale,
    })
}
