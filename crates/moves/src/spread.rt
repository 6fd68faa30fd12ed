// The fewest moves inside a sector, by words of bits: level d has the cells that at most d moves reach.
ghost use Rattle.std.specs.Prelude.{◌≡◌, ℕ, ◌+◌, ◌≤◌, ◌<◌, List, length, get_or, replicate};
ghost use Rattle.model.specs.Moves.{moves};
ghost use Rattle.moves.specs.Levels.{open_words, first_word, first_level, grown_word, grown, missing, moves_in, moves_or_none};

use crate::open_cells::spot_of;
use fields::costs::is_open;
use std::marker::Model;

// Half h of level 0, which has cell `from` alone.
#[tactic(auto, using(std::proofs::lemmas::Nat::one_shl), unfolding(crate::specs::Levels::first_word))]
fn first_word(from: usize, h: usize) -> u64
    ensures { result ≡ first_word from h }
{
    if h == from / 50 {
        1 << spot_of(from)
    } else {
        0
    }
}

// Level 0.
#[tactic(auto, unfolding(crate::specs::Levels::first_level, laws::specs::Table::tabulate))]
fn first_level(from: usize) -> [u64; 2]
    ensures { result ≡ first_level from }
{
    [first_word(from, 0), first_word(from, 1)]
}

// A half of the next level: the open cells that are in this level or beside a cell of it; `across` has those beside a cell of the other half.
#[tactic(auto, unfolding(crate::specs::Levels::grown_word, crate::specs::Levels::around))]
fn grown_word(cells: u64, word: u64, across: u64) -> u64
    ensures { result ≡ grown_word cells word across }
{
    (word | word << 1 | word >> 1 | word << 11 | word >> 11 | across) & cells
}

// The level after a level.
#[tactic(auto, unfolding(crate::specs::Levels::grown))]
fn grown(words: [u64; 2], level: [u64; 2]) -> [u64; 2]
    ensures { result ≡ grown words level }
{
    let [upper, lower] = level;
    [
        grown_word(words[0], upper, lower << 44),
        grown_word(words[1], lower, upper >> 44),
    ]
}

// How many of n levels have cell i. A loop: by `filter` and `count` a route over combs takes 24 % more instructions.
#[tactic(auto, unfolding(crate::specs::Levels::missing))]
fn having(levels: &[[u64; 2]; 101], n: usize, i: usize) -> usize
    requires { (n ≤ 101) × (i < 100) }
    ensures { result + missing levels.now n i ≡ n }
{
    let h = i / 50;
    let k = spot_of(i);
    let mut have = 0;
    for level in &levels[..n] {
        have += usize::from((level[h] >> k) % 2 == 1);
    }
    have
}

// A spread of moves over a sector from one of its cells.
// Its fields are public, so that any levels may be asked, by the first `count` of them.
#[derive(Drop)]
pub struct Spread {
    pub levels: [[u64; 2]; 101],
    pub count: usize,
}

// It is the list of the fewest moves to each of the 100 cells, with 255 where none lead.
impl Model for Spread {
    ghost Value = { List ℕ };

    ghost view = { λ s. moves_in s.levels s.count };

    ghost invariant = { λ s. s.count ≤ 101 };
}

impl Spread {
    // A spread from no cell, which leads to none.
    #[tactic(auto, unfolding(crate::specs::Levels::moves_in, crate::specs::Levels::moves_by, crate::specs::Levels::missing, laws::specs::Table::tabulate))]
    pub fn new() -> Spread
        ensures { result ≡ replicate 100 255 }
    {
        Spread {
            levels: [[0; 2]; 101],
            count: 0,
        }
    }

    // Spreads the moves from a cell, by the costs and the open cells of its sector.
    #[tactic(auto, using(crate::proofs::Levels::filling))]
    pub fn fill(&mut self, costs: &[u8], words: [u64; 2], from: usize)
        requires { (length costs.now ≡ 100) × (words ≡ open_words costs.now) × (from < 100) }
        ensures { self.new ≡ moves costs.now from }
    {
        self.levels[0] = first_level(from);
        self.count = 1;
        if !is_open(costs, from) {
            return;
        }
        for d in 0..100 {
            let level = grown(words, self.levels[d]);
            if level == self.levels[d] {
                return;
            }
            self.levels[d + 1] = level;
            self.count = d + 2;
        }
    }

    // The fewest moves to cell i, or None where none lead there.
    pub fn moves_at(&self, i: usize) -> Option<u8>
        requires { i < 100 }
        ensures { result ≡ moves_or_none (get_or self.now i 0) }
    {
        let lack = self.count - having(&self.levels, self.count, i);
        (lack < self.count).then_some(lack as u8)
    }
}
