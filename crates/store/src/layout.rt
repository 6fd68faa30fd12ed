// Where a store has the parts of a hall, their readers, and the writer of a hall. No other module computes a place in a store.
ghost use Rattle.std.specs.Prelude.{◌≡◌, ◌++◌, ◌+◌, ◌*◌, ◌≤◌, ◌<◌, length, get_or, drop};
ghost use Rattle.model.specs.Sectors.{sectors, cells, costs_of};
ghost use Rattle.model.specs.Accepted.{Accepted};
ghost use Rattle.model.specs.Store.{header, fourth_at, size_of, u16_bytes, written};
ghost use Rattle.model.specs.StoreLayout.{Laid};
ghost use Rattle.store.specs.Layout.{hall_of, sector_marks};

use crate::reading::{put_u16, u16_at};
use fields::copies::{put_front, put_part};
use fields::sectors::{SECTOR_CELLS, cells, sectors};
use model::Measures;
use std::array::from_fn;

// A store that has the bytes of a hall of these measures.
#[derive(Clone, Copy)]
pub struct Store<'a> {
    pub measures: Measures,
    pub bytes: &'a [u8],
    ghost accepted: { Accepted measures },
    ghost fits: { size_of measures ≤ length bytes.now },
}

impl<'a> Store<'a> {
    ghost use Rattle.store.specs.Stored.{held};

    // The base costs.
    pub fn base(&self) -> &'a [u8]
        ensures { (result.now ≡ (held self.now).base) × (length result.now ≡ cells self.now.measures) }
    {
        let end = 4 + cells(self.measures);
        &self.bytes[4..end]
    }

    // The scaled costs.
    #[tactic(auto, using(crate::specs::Layout::part_is))]
    pub fn scaled(&self) -> &'a [u8]
        ensures { (result.now ≡ (held self.now).scaled) × (length result.now ≡ cells self.now.measures) }
    {
        let start = 4 + cells(self.measures);
        let end = start + cells(self.measures);
        &self.bytes[start..end]
    }

    // The scaled costs of sector s.
    #[tactic(auto, using(crate::specs::Layout::sector_is))]
    pub fn sector(&self, s: usize) -> &'a [u8]
        requires { s < sectors self.now.measures }
        ensures { (result.now ≡ costs_of (held self.now).scaled s) × (length result.now ≡ 100) }
    {
        let start = 4 + cells(self.measures) + s * SECTOR_CELLS;
        let end = start + SECTOR_CELLS;
        &self.bytes[start..end]
    }

    // Mark k.
    #[tactic(auto, using(crate::specs::Layout::mark_is))]
    pub fn mark(&self, k: usize) -> u16
        requires { k < sectors self.now.measures * 4 }
        ensures { result ≡ get_or (held self.now).marks k 0 }
    {
        u16_at(self.bytes, 4 + 2 * cells(self.measures) + 2 * k)
    }

    // The marks of the four sides of sector s.
    #[tactic(auto, unfolding(crate::specs::Layout::sector_marks, laws::specs::Table::tabulate))]
    pub fn sector_marks(&self, s: usize) -> [u16; 4]
        requires { s < sectors self.now.measures }
        ensures { result ≡ sector_marks (held self.now).marks s }
    {
        from_fn(|k| self.mark(s * 4 + k))
    }
}

// The fourth byte of the header.
pub fn fourth_byte(st: &[u8]) -> u8
    requires { 4 ≤ length st.now }
    ensures { result ≡ fourth_at st.now }
{
    st[3]
}

// How many bytes the store of a hall takes.
pub fn size_of(m: Measures) -> usize
    ensures { result ≡ size_of m }
{
    4 + 208 * sectors(m)
}

// The header that opens a store.
fn put_measures(m: Measures, st: &mut [u8])
    requires { 4 ≤ length st.old }
    ensures { st.new ≡ header m ++ drop 4 st.old }
{
    put_front(&<[u8; 3]>::from(m), st);
    st[3] = 0;
}

// The bytes of all marks.
#[tactic(auto, using(crate::proofs::Laying::marking), unfolding(crate::specs::Layout::set_mark))]
fn put_marks(marks: &[u16], bytes: &mut [u8])
    requires { length bytes.old ≡ 2 * length marks.now }
    ensures { bytes.new ≡ u16_bytes marks.now }
{
    for (k, mark) in marks.iter().enumerate() {
        put_u16(bytes, 2 * k, *mark);
    }
}

// Writes a hall into a store. Bytes past its size stay.
#[tactic(auto, using(crate::proofs::Laying::written_by))]
pub fn write_hall(m: Measures, base: &[u8], scaled: &[u8], marks: &[u16], st: &mut [u8])
    requires { Laid (hall_of m base.now scaled.now marks.now) × (size_of m ≤ length st.old) }
    ensures { st.new ≡ written (hall_of m base.now scaled.now marks.now) st.old }
{
    put_measures(m, st);
    put_part(base, 4, st);
    put_part(scaled, 4 + base.len(), st);
    let a = 4 + 2 * base.len();
    let e = a + 2 * marks.len();
    put_marks(marks, &mut st[a..e]);
}
