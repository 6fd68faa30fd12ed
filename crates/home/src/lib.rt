// Request 2 of document 02 of the running code: a floor is written as a hall file, and the file is read.
#![tactic(auto)]

ghost use Rattle.std.specs.Prelude.{◌≡◌, length};
ghost use Rattle.model.specs.Calls.{write_into};
ghost use Rattle.home.specs.Home.{BackAnswers, back_into, ComesBack};

use hall_file::read::read_file;
use hall_file::write::write_file;
use model::{Measures, Refusal};

// Writes the floor of a store to the front of a lent output, and reads the file that is there then into a lent list of base costs.
pub fn write_and_read(st: &[u8], output: &mut [u8], base: &mut [u8]) -> Result<Measures, Refusal>
    ensures answer { BackAnswers st.now (length output.old) (length base.old) result }
    ensures written { output.new ≡ write_into st.now output.old }
    ensures filled { base.new ≡ back_into st.now (length output.old) base.old }
    ensures back { ComesBack st.now (length output.old) (length base.old) result base.new }
{
    let length = write_file(st, output)?;
    read_file(&output[..length as usize], base)
}
