// A queue and its slots. Every value of `Queue` is one: the slot served last is read modulo 16.
ghost use Rattle.std.specs.Prelude.{◌≡◌};
ghost use Rattle.queue.specs.Slots.{empty_queue, slot_at, left_in};

pub const SLOT_COUNT: usize = 16;

// As if the last slot had been served, so that the first round begins at slot 0.
const LAST_AT_START: u8 = 15;

#[derive(Clone, Copy)]
pub struct Queue {
    // How many records are left of the book in each slot, or `None` in one that is free. A book with 0 records
    // left keeps its slot until it is removed.
    pub slots: [Option<u32>; SLOT_COUNT],
    // The slot that was served last.
    pub last: u8,
}

impl Queue {
    // A queue with every slot free.
    pub fn new() -> Queue
        ensures empty { result ≡ empty_queue }
    {
        Queue {
            slots: [None; SLOT_COUNT],
            last: LAST_AT_START,
        }
    }

    // What slot i holds: past 15, nothing.
    pub(crate) fn look(&self, i: usize) -> Option<u32>
        ensures held { result ≡ slot_at self.now i }
    {
        *self.slots.get(i)?
    }

    pub(crate) fn count_left(&self, i: usize) -> u32
        ensures left { result ≡ left_in (slot_at self.now i) }
    {
        self.look(i).unwrap_or(0)
    }
}
