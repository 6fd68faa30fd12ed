// The hall file of a floor: how many entries it has, and its bytes.
ghost use Rattle.std.specs.Prelude.{◌≡◌, true, ◌++◌, ◌+◌, ◌*◌, ◌≤◌, ◌<◌, length, drop};
ghost use Rattle.laws.specs.Fold.{bit};
ghost use Rattle.model.specs.Store.{is_named, named_cells, file_of};
ghost use Rattle.file.specs.Making.{opening, set_entry};

use fields::copies::put_front;
use model::Measures;
use store::reading::put_u16;

// How many cells have an entry, as they do not cost 1. A loop: by `filter` and `count`, writing a file of no entries takes some 117,300 instructions, and so 96,400.
pub fn named_count(base: &[u8]) -> usize
    ensures { (result ≡ length (named_cells base.now)) × (result ≤ length base.now) }
{
    let mut count = 0;
    for cost in base {
        count += usize::from(*cost != 1);
    }
    count
}

// Sizes, scale and count, which open a file.
fn put_opening(m: Measures, count: usize, file: &mut [u8])
    requires { (count < 65536) × (5 ≤ length file.old) }
    ensures { file.new ≡ opening m count ++ drop 5 file.old }
{
    put_front(&<[u8; 3]>::from(m), file);
    put_u16(file, 3, count as u16);
}

// A file that is being made: how many entries it has, and how many of them are in.
#[derive(Drop)]
struct Made<'a> {
    file: &'a mut [u8],
    count: usize,
    put: usize,
}

impl Made<'_> {
    // Puts the next entry.
    fn push(&mut self, n: usize, cost: u8)
        requires { (n < 65536) × (self.old.put < self.old.count) × (5 + 3 * self.old.count ≤ length self.old.file.now) }
        ensures same { self.new.file.ghost_name ≡ self.old.file.ghost_name }
        ensures long { length self.new.file.now ≡ length self.old.file.now }
        ensures count { (self.new.count ≡ self.old.count) × (self.new.put ≡ self.old.put + 1) }
        ensures put { self.new.file.now ≡ set_entry n cost self.old.put self.old.count self.old.file.now }
    {
        put_u16(self.file, 5 + 2 * self.put, n as u16);
        self.file[5 + 2 * self.count + self.put] = cost;
        self.put += 1;
    }
}

// Makes the file of a floor, which has count entries, at the front of a list. Bytes past it stay.
pub fn make_file(m: Measures, base: &[u8], count: usize, file: &mut [u8])
    requires { (length base.now ≤ 10000) × (count ≡ length (named_cells base.now)) × (5 + 3 * count ≤ length file.old) }
    ensures { file.new ≡ file_of m base.now ++ drop (length (file_of m base.now)) file.old }
{
    let mut made = Made {
        file,
        count,
        put: 0,
    };
    for (n, cost) in base.iter().enumerate() {
        if *cost != 1 {
            made.push(n, *cost);
        }
    }
    put_opening(m, count, made.file);
}
