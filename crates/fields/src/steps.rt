// Steps in their flat form, six bytes each.
ghost use Rattle.std.specs.Prelude.{◌≡◌, ◌+◌, ◌*◌, ◌≤◌, length};
ghost use Rattle.model.specs.FlatSteps.{step_in};

use model::RouteStep;

// Step k of a flat list.
pub fn step_in(flat: &[u8], k: usize) -> RouteStep
    requires { 6 * k + 6 ≤ length flat.now }
    ensures { result ≡ step_in flat.now k }
{
    flat.as_chunks::<6>().0[k].into()
}
