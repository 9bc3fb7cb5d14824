// What the calls answer. specs/Reply.antt gives the number and the values of each case.
ghost use Rattle.std.specs.Prelude.{◌≡◌};
ghost use Rattle.queue.specs.Reply.{queue_number};

// Why a call was turned away. The queue is as it was.
#[derive(Clone, Copy)]
pub enum Refusal {
    // 50: all 16 slots are taken.
    Full,
    // 51: the slot is free, or its number is past 15.
    Empty,
    // 52: the budget is 0.
    NoBudget,
    // 53: no slot has records left.
    NothingLeft,
}

// The number of a refusal.
pub fn number_refusal(x: Refusal) -> u8
    ensures number { result ≡ queue_number x }
{
    match x {
        Refusal::Full => 50,
        Refusal::Empty => 51,
        Refusal::NoBudget => 52,
        Refusal::NothingLeft => 53,
    }
}

// What a turn did: which slot it served, and how many of its records moved.
#[derive(Clone, Copy)]
pub struct Served {
    pub slot: usize,
    pub moved: u32,
}
