// Numbers and measures, as they stand in bytes.
ghost use Rattle.std.specs.Prelude.{◌≡◌, ◌+◌, ◌/◌, ◌%◌, ◌≤◌, ◌<◌, length, set};
ghost use Rattle.model.specs.Store.{u16_at, measures_at};

use model::Measures;

// The u16 at a place, low byte first.
#[tactic(auto, unfolding(model::specs::Store::u16_at))]
pub fn u16_at(bytes: &[u8], i: usize) -> u16
    requires { i + 1 < length bytes.now }
    ensures { result ≡ u16_at bytes.now i }
{
    u16::from_le_bytes([bytes[i], bytes[i + 1]])
}

// Puts the two bytes of a u16 at a place, low byte first.
pub fn put_u16(bytes: &mut [u8], i: usize, n: u16)
    requires { i + 1 < length bytes.old }
    ensures { bytes.new ≡ set (set bytes.old i (n % 256)) (i + 1) (n / 256) }
{
    let [low, high] = n.to_le_bytes();
    bytes[i] = low;
    bytes[i + 1] = high;
}

// The measures, which open both a store and a file.
pub fn measures_at(bytes: &[u8]) -> Measures
    requires { 3 ≤ length bytes.now }
    ensures { result ≡ measures_at bytes.now }
{
    Measures::from([bytes[0], bytes[1], bytes[2]])
}
