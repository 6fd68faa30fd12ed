// The lines that the program prints.
ghost use Rattle.std.specs.Prelude.{◌≡◌, ◌++◌, ◌+◌, ◌≤◌, ◌<◌, [], length};
ghost use Rattle.arrayvec.specs.ArrayString.{array_string_len};
ghost use Rattle.model.specs.Numbers.{number};
ghost use Rattle.model.specs.Hallroute.{text, decimal, pair_lines};
ghost use Rattle.hallroute.specs.Printed.{pair_line};

use arrayvec::ArrayString;
use cards::lines::push_line;
use cards::numbers::push_number;
use hall_route::route;
use model::Refusal;
use store::reading::u16_at;

// The line of a pair. The list holds 1,001 steps.
fn push_pair(
    st: &[u8],
    source: usize,
    goal: usize,
    steps: &mut [u8; 6006],
    line: &mut ArrayString<20100>,
)
    requires { line.old.bytes ≡ [] }
    ensures { line.new.bytes ≡ pair_line st.now source goal }
{
    let answer = route(st, source, goal, steps);
    push_line(line, source, goal, answer, steps);
}

// The line of the four bytes of a pair, or `cut` where there are fewer, in place of what the text had.
pub fn push_bytes(st: &[u8], pair: &[u8], steps: &mut [u8; 6006], line: &mut ArrayString<20100>)
    requires { (0 < length pair.now) × (length pair.now ≤ 4) }
    ensures { line.new.bytes ≡ pair_lines st.now pair.now }
{
    line.clear();
    if pair.len() < 4 {
        line.push_str("cut\n");
        return;
    }
    let source = usize::from(u16_at(pair, 0));
    let goal = usize::from(u16_at(pair, 2));
    push_pair(st, source, goal, steps, line);
}

// The line of a refused hall file.
pub fn push_refused<const N: usize>(line: &mut ArrayString<N>, refusal: Refusal)
    requires { array_string_len line.old + 20 ≤ N }
    ensures { line.new.bytes ≡ line.old.bytes ++ (text "hall refused " ++ (decimal (number refusal) ++ text "\n")) }
{
    line.push_str("hall refused ");
    push_number(line, refusal.number());
    line.push_str("\n");
}
