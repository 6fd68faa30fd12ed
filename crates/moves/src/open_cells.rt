// The open cells of a sector as two words of bits, each five rows of eleven: ten cells, and a bit that stays 0 so that no move leads from one row's end to the next row.
ghost use Rattle.std.specs.Prelude.{◌≡◌, ◌<◌};
ghost use Rattle.moves.specs.Levels.{spot, open_row, open_word, open_words};

use fields::bits::mark_of;
use fields::costs::open_at;

// The bit of cell i in its word.
pub fn spot_of(i: usize) -> usize
    ensures { (result ≡ spot i) × (result < 54) }
{
    i % 50 / 10 * 11 + i % 10
}

// The open cells of row y of a sector, bit x for column x.
fn row_mark(costs: &[u8], y: usize) -> u16
    requires { y < 10 }
    ensures { result ≡ open_row costs.now y }
{
    mark_of(|x| open_at(costs, y * 10 + x))
}

// The open cells of half h of a sector, five rows of eleven bits.
#[tactic(auto, using(crate::proofs::Words::packed_none, crate::proofs::Words::packed_more, crate::proofs::Words::row_small), unfolding(crate::specs::Levels::open_word))]
fn open_word(costs: &[u8], h: usize) -> u64
    requires { h < 2 }
    ensures { result ≡ open_word costs.now h }
{
    let mut word = 0;
    for y in 0..5 {
        word |= u64::from(row_mark(costs, h * 5 + y)) << (y * 11);
    }
    word
}

// The open cells of both halves.
#[tactic(auto, unfolding(crate::specs::Levels::open_words, laws::specs::Table::tabulate))]
pub fn open_words(costs: &[u8]) -> [u64; 2]
    ensures { result ≡ open_words costs.now }
{
    [open_word(costs, 0), open_word(costs, 1)]
}
