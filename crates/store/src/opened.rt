// A store that has passed the store check.
ghost use Rattle.store.specs.Passed.{Passed};

use crate::layout::Store;

// What each call reads once the check has refused nothing.
#[derive(Clone, Copy)]
pub struct Opened<'a> {
    pub store: Store<'a>,
    ghost opened: { Passed store.measures store.bytes.now },
}
