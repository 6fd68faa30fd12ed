// The windows of a mark: ten bits, bit i for place i.
ghost use Rattle.std.specs.Prelude.{◌≡◌, ◌≤◌, ◌<◌};
ghost use Rattle.model.specs.Windows.{window_count};
ghost use Rattle.portal.specs.Runs.{starts, places_of, rest_of};

// The first and the last place of a window.
#[derive(Drop)]
pub struct OpenRun {
    pub first: usize,
    pub last: usize,
}

// The first window of a mark, and the mark without it.
#[derive(Drop)]
struct RunAndRest {
    run: OpenRun,
    rest: u16,
}

// How many windows a mark has: its ones with a zero below them.
#[tactic(auto, using(crate::proofs::AllMarks::few_ones, crate::proofs::AllMarks::count_is))]
pub fn window_count(mark: u16) -> usize
    ensures { (result ≤ 16) × (mark ≤ 1023 → result ≡ window_count mark) × (result ≡ starts mark) }
{
    (mark & !(mark << 1)).count_ones() as usize
}

// The first window of a mark: its zeros below give the first place, and the ones from there on the width.
fn first_run(mark: u16) -> RunAndRest
    requires { (0 < mark) × (mark ≤ 1023) }
    ensures { (result.run ≡ places_of mark 0) × (result.rest ≡ rest_of mark) }
{
    let first = mark.trailing_zeros();
    let width = (!(mark >> first)).trailing_zeros();
    let past = first + width;
    RunAndRest {
        run: OpenRun {
            first: first as usize,
            last: (past - 1) as usize,
        },
        rest: mark >> past << past,
    }
}

// Window j of a mark: the first that is left without the j before it.
#[tactic(auto, using(crate::proofs::AllMarks::passing))]
pub fn window_at(mark: u16, j: usize) -> OpenRun
    requires { (mark ≤ 1023) × (j < window_count mark) }
    ensures { result ≡ places_of mark j }
{
    let mut left = mark;
    for _passed in 0..j {
        left = first_run(left).rest;
    }
    first_run(left).run
}
