// Lists put into others, whole or in part.
ghost use Rattle.std.specs.Prelude.{◌≡◌, ◌++◌, ◌+◌, ◌≤◌, length, drop};
ghost use Rattle.laws.specs.Region.{region, within, placed};

// Puts a list in place of the front of another.
pub fn put_front(list: &[u8], to: &mut [u8])
    requires { length list.now ≤ length to.old }
    ensures { to.new ≡ list.now ++ drop (length list.now) to.old }
{
    to[..list.len()].copy_from_slice(list);
}

// Puts a list in place of what stands from place a on.
#[tactic(auto, using(laws::specs::Region::part_given))]
pub fn put_part(list: &[u8], a: usize, to: &mut [u8])
    requires { a + length list.now ≤ length to.old }
    ensures { to.new ≡ placed a list.now to.old }
{
    to[a..a + list.len()].copy_from_slice(list);
}

// Puts the n entries from place a on in place of those from place b on.
pub fn copy_part(from: &[u8], a: usize, n: usize, b: usize, to: &mut [u8])
    requires { (a + n ≤ length from.now) × (b + n ≤ length to.old) }
    ensures { to.new ≡ within b n (λ old. region a n from.now) to.old }
{
    put_part(&from[a..a + n], b, to);
}
