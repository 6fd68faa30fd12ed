// The read file call.
ghost use Rattle.std.specs.Prelude.{◌≡◌, length};
ghost use Rattle.model.specs.Numbers.{number_of};
ghost use Rattle.model.specs.Calls.{form_number, read_number, read_into};
ghost use Rattle.model.specs.Answers.{ReadAnswers};

use file::entries::{any_again, any_off, fill_from, too_many, wrong_length};
use model::{Measures, Refusal};
use store::check::{check_measures, wrong_size};
use store::reading::measures_at;

// Refusals 10 to 14, which look at the file's form.
fn check_form(file: &[u8]) -> Result<(), Refusal>
    ensures { number_of result ≡ form_number file.now }
{
    if file.len() < 5 {
        return Err(Refusal::FileUnderFive);
    }
    let m = measures_at(file);
    check_measures(m)?;
    if too_many(file) {
        return Err(Refusal::EntryCount);
    }
    if wrong_length(file) {
        return Err(Refusal::FileLength);
    }
    Ok(())
}

// The refusals of a file and a list of size costs.
fn check_file(file: &[u8], size: usize) -> Result<(), Refusal>
    ensures { number_of result ≡ read_number file.now size }
{
    check_form(file)?;
    if any_off(file) {
        return Err(Refusal::EntryNumber);
    }
    if any_again(file) {
        return Err(Refusal::EntryAgain);
    }
    if wrong_size(measures_at(file), size) {
        return Err(Refusal::ListLength);
    }
    Ok(())
}

// Reads a hall file into a lent list of base costs. A refusal leaves the list as it was.
pub fn read_file(file: &[u8], base: &mut [u8]) -> Result<Measures, Refusal>
    ensures answer { ReadAnswers file.now (length base.old) result }
    ensures filled { base.new ≡ read_into file.now base.old }
{
    check_file(file, base.len())?;
    fill_from(file, base);
    Ok(measures_at(file))
}
