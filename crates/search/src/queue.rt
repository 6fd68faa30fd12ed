// The queue of a search: the order in which numbers came to wait. It bears on the search's speed alone, so the queue may lose a number.
ghost use Rattle.std.specs.Prelude.{◌≡◌, ◌+◌, ◌≤◌, ◌<◌, ◌↔◌, IsTrue, MatchOption, length, get_or, set};
ghost use Rattle.laws.specs.Turns.{Lined};
ghost use Rattle.search.specs.declared.queue.TheConstants.{QUEUE_ROOM};

// How many numbers a queue has room for: about two turns of each portal of the largest hall.
const QUEUE_ROOM: usize = 4096;

// The numbers from place `head` up to place `end` are still to be served.
#[derive(Drop)]
pub struct Queue {
    numbers: [u16; QUEUE_ROOM],
    head: usize,
    end: usize,
    ghost ordered: { head ≤ end },
    ghost room: { end ≤ QUEUE_ROOM },
}

impl Queue {
    // No number.
    pub fn new() -> Queue
        ensures { (result.head ≡ 0) × (result.end ≡ 0) × (length result.numbers ≡ QUEUE_ROOM) }
    {
        Queue {
            numbers: [0; QUEUE_ROOM],
            head: 0,
            end: 0,
        }
    }

    // Number v comes to the end, if there is room.
    pub fn push(&mut self, v: usize)
        requires { v < 65536 }
        ensures same { self.new.head ≡ self.old.head }
        ensures added { self.old.end < QUEUE_ROOM → (self.new.end ≡ self.old.end + 1) × (self.new.numbers ≡ set self.old.numbers self.old.end v) }
    {
        if QUEUE_ROOM <= self.end {
            return;
        }
        self.numbers[self.end] = v as u16;
        self.end += 1;
    }

    fn is_empty(&self) -> bool
        ensures { IsTrue result ↔ self.now.end ≤ self.now.head }
    {
        self.end <= self.head
    }

    // The next number leaves the queue.
    pub fn pop(&mut self) -> Option<usize>
        ensures { MatchOption result (self.old.end ≤ self.old.head) (λ u. (u ≡ get_or self.old.numbers self.old.head 0) × (self.new.head ≡ self.old.head + 1)) }
    {
        if self.is_empty() {
            return None;
        }
        let u = self.numbers[self.head];
        self.head += 1;
        Some(usize::from(u))
    }

    // The numbers that wait make up the queue. Whether there is any. Within `settle` its loop takes twice as many instructions, a route up to 2.4 % more.
    #[inline(never)]
    #[tactic(auto, using(laws::specs::Turns::lined_skip, laws::specs::Turns::lined_take))]
    pub fn refill(&mut self, wait: &[bool]) -> bool
        requires { length wait.now ≤ QUEUE_ROOM }
        ensures lined { Lined (length wait.now) wait.now self.new.numbers self.new.end × (self.new.head ≡ 0) }
        ensures some { IsTrue result ↔ 0 < self.new.end }
    {
        self.head = 0;
        self.end = 0;
        for (u, waits) in wait.iter().enumerate() {
            if *waits {
                self.push(u);
            }
        }
        !self.is_empty()
    }
}
