// Turns go round the slots.
ghost use Rattle.std.specs.Prelude.{◌≡◌, ◌<◌, ◌≤◌, MatchOption};
ghost use Rattle.queue.specs.Slots.{slot_count};
ghost use Rattle.queue.specs.Round.{passed_over, next_up, turned};

use crate::reply::{Refusal, Served};
use crate::slots::{Queue, SLOT_COUNT};

impl Queue {
    // The next book with records left moves as a wake with this budget does.
    pub fn turn(&mut self, budget: u32) -> Result<Served, Refusal>
        ensures answer { result ≡ (turned self.old budget).answer }
        ensures queue { self.new ≡ (turned self.old budget).queue }
    {
        if budget == 0 {
            return Err(Refusal::NoBudget);
        }
        let Some(slot) = self.find_next() else {
            return Err(Refusal::NothingLeft);
        };
        let left = self.count_left(slot);
        let moved = budget.min(left);
        self.slots[slot] = Some(left - moved);
        self.last = slot as u8;
        Ok(Served { slot, moved })
    }

    // The first slot with records left, going round from the one after the last served.
    fn find_next(&self) -> Option<usize>
        ensures next { MatchOption result (slot_count ≤ passed_over self.now) (λ i. (i ≡ next_up self.now) × (passed_over self.now < slot_count)) }
    {
        let first = self.last as usize + 1;
        (first..first + SLOT_COUNT)
            .map(|i| i % SLOT_COUNT)
            .find(|i| 0 < self.count_left(*i))
    }
}
