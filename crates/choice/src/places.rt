// A start and an end portal by their places.
ghost use Rattle.std.specs.Prelude.{◌<◌};
ghost use Rattle.model.specs.Portals.{sector_portals};

// The place of a start in the sector of the source, and of an end in that of the goal, with the moves from the source to the one and from the other to the goal.
#[derive(Clone, Copy)]
pub struct Pair {
    pub start: usize,
    pub end: usize,
    pub leg: u8,
    pub last: u8,
    ghost start_low: { start < sector_portals },
    ghost end_low: { end < sector_portals },
}
