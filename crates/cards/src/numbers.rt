// Numbers in decimal.
ghost use Rattle.std.specs.Prelude.{◌≡◌, ◌+◌, ◌++◌, ◌≤◌};
ghost use Rattle.arrayvec.specs.ArrayString.{array_string_len};

use arrayvec::ArrayString;
use itoa::{Buffer, Integer};

// Puts a number of any width behind a text, which has room for the widest of its type.
pub fn push_number<const N: usize, I: Integer>(line: &mut ArrayString<N>, n: I)
    requires { array_string_len line.old + I.MAX_STR_LEN ≤ N }
    ensures written { line.new.bytes ≡ line.old.bytes ++ I.text n }
    ensures short { array_string_len line.new ≤ array_string_len line.old + I.MAX_STR_LEN }
{
    let mut digits = Buffer::new();
    line.push_str(digits.format(n));
}
