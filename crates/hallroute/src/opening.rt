// The hall file at the front of the input, and its hall in a store.
ghost use Rattle.std.specs.Prelude.{◌≡◌, ◌≤◌, length};
ghost use Rattle.model.specs.Numbers.{number_of};
ghost use Rattle.model.specs.Hallroute.{file_size};
ghost use Rattle.model.specs.Calls.{read_number};
ghost use Rattle.hallroute.specs.Opening.{file_number, open_into};

use fields::sectors::cells;
use hall::build::build;
use hall_file::read::read_file;
use model::Refusal;
use store::reading::{measures_at, u16_at};

// How many bytes of the input are the hall file.
pub fn file_size(input: &[u8]) -> usize
    ensures { (result ≡ file_size input.now) × (result ≤ length input.now) }
{
    if input.len() < 5 {
        return input.len();
    }
    input.len().min(5 + 3 * usize::from(u16_at(input, 3)))
}

// How many base costs a file is read into. A floor has at most 10,000 cells; a file with more is refused for its columns or rows.
fn base_size(file: &[u8]) -> usize
    ensures { (result ≤ 10000) × (read_number file.now result ≡ file_number file.now) }
{
    if file.len() < 5 {
        return 0;
    }
    let size = cells(measures_at(file));
    if 10000 < size {
        return 0;
    }
    size
}

fn read_into(file: &[u8], base: &mut [u8], st: &mut [u8]) -> Result<(), Refusal>
    requires { (read_number file.now (length base.old) ≡ file_number file.now) × (20804 ≤ length st.old) }
    ensures number { number_of result ≡ file_number file.now }
    ensures store { st.new ≡ open_into file.now st.old }
{
    let m = read_file(file, base)?;
    build(m.columns, m.rows, m.scale, base, st)
}

// Builds the hall of a file in a store. A refusal leaves the store as it was.
pub fn open_hall(file: &[u8], st: &mut [u8]) -> Result<(), Refusal>
    requires { 20804 ≤ length st.old }
    ensures number { number_of result ≡ file_number file.now }
    ensures store { st.new ≡ open_into file.now st.old }
{
    let mut base = [0u8; 10000];
    let n = base_size(file);
    read_into(file, &mut base[..n], st)
}
