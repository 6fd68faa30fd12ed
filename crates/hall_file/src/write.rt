// The write file call: document 02, request 2.
ghost use Rattle.std.specs.Prelude.{◌≡◌, length};
ghost use Rattle.model.specs.Calls.{write_into};
ghost use Rattle.model.specs.Answers.{WriteAnswers};

use file::made::{make_file, named_count};
use hall::check::check_store;
use model::Refusal;

// Writes the floor of a store as a hall file to the front of a lent output, and gives the file's length. Bytes past it stay, and a refusal leaves the output as it was.
pub fn write_file(st: &[u8], output: &mut [u8]) -> Result<u32, Refusal>
    ensures answer { WriteAnswers st.now (length output.old) result }
    ensures written { output.new ≡ write_into st.now output.old }
{
    let hall = check_store(st)?;
    let base = hall.store.base();
    let count = named_count(base);
    let size = 5 + 3 * count;
    if output.len() < size {
        return Err(Refusal::FileRoom);
    }
    make_file(hall.store.measures, base, count, output);
    Ok(size as u32)
}
