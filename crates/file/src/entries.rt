// A hall file: the tests that are its own, and the base costs that it gives.
ghost use Rattle.std.specs.Prelude.{◌≡◌, false, not, ◌+◌, ◌*◌, ◌≤◌, ◌<◌, ltb, eqb, length};
ghost use Rattle.laws.specs.Search.{any};
ghost use Rattle.model.specs.Accepted.{Accepted};
ghost use Rattle.model.specs.Store.{measures_at, entry_count, entry_number, entry_cost, base_in};
ghost use Rattle.model.specs.Calls.{entry_off, entry_again};
ghost use Rattle.model.specs.FileCosts.{Readable};

use fields::sectors::{MOST_CELLS, cells};
use store::reading::{measures_at, u16_at};

// Whether a file counts more than 10,000 entries.
pub fn too_many(file: &[u8]) -> bool
    requires { 5 ≤ length file.now }
    ensures { result ≡ ltb 10000 (entry_count file.now) }
{
    10000 < u16_at(file, 3)
}

// Whether a file is not as long as its entries take.
pub fn wrong_length(file: &[u8]) -> bool
    requires { 5 ≤ length file.now }
    ensures { result ≡ not (eqb (length file.now) (5 + 3 * entry_count file.now)) }
{
    file.len() != 5 + 3 * usize::from(u16_at(file, 3))
}

// The entries of a file that is at least as long as they take: the floor numbers, and behind all of them the costs.
#[derive(Clone, Copy)]
struct Entries<'a> {
    file: &'a [u8],
    count: usize,
    ghost counted: { count ≡ entry_count file.now },
    ghost whole: { 5 + 3 * count ≤ length file.now },
}

impl<'a> Entries<'a> {
    fn of(file: &'a [u8]) -> Self
        requires { 5 + 3 * entry_count file.now ≤ length file.now }
        ensures { (result.file.now ≡ file.now) × (result.count ≡ entry_count file.now) }
    {
        Entries {
            file,
            count: usize::from(u16_at(file, 3)),
        }
    }

    // The floor number of entry k.
    fn number(&self, k: usize) -> usize
        requires { k < self.now.count }
        ensures { result ≡ entry_number self.now.file.now k }
    {
        usize::from(u16_at(self.file, 5 + 2 * k))
    }

    // The cost of entry k.
    fn cost(&self, k: usize) -> u8
        requires { k < self.now.count }
        ensures { result ≡ entry_cost self.now.file.now k }
    {
        self.file[5 + 2 * self.count + k]
    }
}

// Whether the floor number of any entry is too large. A loop: by `any`, reading a file of no entries takes some 20,100 instructions, and so 10,100.
pub fn any_off(file: &[u8]) -> bool
    requires { 5 + 3 * entry_count file.now ≤ length file.now }
    ensures { result ≡ any (entry_off file.now) (entry_count file.now) }
{
    let entries = Entries::of(file);
    let size = cells(measures_at(file));
    for k in 0..entries.count {
        if size <= entries.number(k) {
            return true;
        }
    }
    false
}

// Whether a floor number stands twice, in a file none of whose floor numbers is too large.
#[tactic(auto, using(crate::specs::Entries::entry_marked, crate::specs::Entries::unrepeated_all))]
pub fn any_again(file: &[u8]) -> bool
    requires { (5 + 3 * entry_count file.now ≤ length file.now) × Accepted (measures_at file.now) × (any (entry_off file.now) (entry_count file.now) ≡ false) }
    ensures { result ≡ any (entry_again file.now) (entry_count file.now) }
{
    let entries = Entries::of(file);
    let mut met = [false; MOST_CELLS];
    for k in 0..entries.count {
        let number = entries.number(k);
        if met[number] {
            return true;
        }
        met[number] = true;
    }
    false
}

// Fills a list of base costs from a file that is not refused.
#[tactic(auto, using(laws::specs::Fold::counting, model::specs::FileCosts::entry_on, crate::specs::Entries::filled_from))]
pub fn fill_from(file: &[u8], base: &mut [u8])
    requires { Readable file.now (length base.old) }
    ensures { base.new ≡ base_in file.now (length base.old) }
{
    let entries = Entries::of(file);
    base.fill(1);
    for k in 0..entries.count {
        base[entries.number(k)] = entries.cost(k);
    }
}
