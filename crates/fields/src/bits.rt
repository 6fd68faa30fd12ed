// Marks, bit i for place i, made from the last place down.
ghost use Rattle.std.specs.Prelude.{◌≡◌, Bool, ℕ, ◌<◌};
ghost use Rattle.model.specs.Windows.{bits};

// The mark of ten places, by whether each is open.
pub fn mark_of<F: Fn(usize) -> bool>(is_open: F) -> u16
    requires { (i : ℕ) → i < 10 → F.pre is_open i }
    ensures { (test : ℕ → Bool) → ((i : ℕ) (o : Bool) → i < 10 → F.post is_open i o → o ≡ test i) → result ≡ bits test 10 }
{
    let mut mark = 0;
    for i in (0..10).rev() {
        mark = 2 * mark + u16::from(is_open(i));
    }
    mark
}
