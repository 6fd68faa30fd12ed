// The windows call.
ghost use Rattle.std.specs.Prelude.{◌≡◌, ◌/◌, length};
ghost use Rattle.model.specs.Calls.{windows_flat};
ghost use Rattle.model.specs.Answers.{WindowsAnswers};

use crate::check::check_store;
use fields::sectors::sectors;
use model::Refusal;
use portal::windows::{sector_windows, windows_number};

// Lists the windows of a sector, N, E, S, W, three bytes each: first cell, last cell and side. A refusal leaves the list as it was.
pub fn windows(st: &[u8], sector: usize, list: &mut [u8]) -> Result<u8, Refusal>
    ensures answer { WindowsAnswers st.now sector (length list.old / 3) result }
    ensures listed { list.new ≡ windows_flat st.now sector list.old }
{
    let hall = check_store(st)?;
    if sectors(hall.store.measures) <= sector {
        return Err(Refusal::Sector);
    }
    let marks = hall.store.sector_marks(sector);
    if list.len() / 3 < windows_number(marks) {
        return Err(Refusal::WindowRoom);
    }
    Ok(sector_windows(list, marks) as u8)
}
