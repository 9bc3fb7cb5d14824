// Books come and go.
ghost use Rattle.std.specs.Prelude.{◌≡◌, ◌<◌, ◌≤◌, MatchOption};
ghost use Rattle.queue.specs.Slots.{slot_count};
ghost use Rattle.queue.specs.Books.{lowest_free, added, removed};

use crate::reply::Refusal;
use crate::slots::Queue;

impl Queue {
    // A book of n records takes the lowest free slot, which is answered.
    pub fn add(&mut self, n: u32) -> Result<usize, Refusal>
        ensures answer { result ≡ (added self.old n).answer }
        ensures queue { self.new ≡ (added self.old n).queue }
    {
        let Some(slot) = self.find_free() else {
            return Err(Refusal::Full);
        };
        self.slots[slot] = Some(n);
        Ok(slot)
    }

    // The lowest free slot, if there is one.
    fn find_free(&self) -> Option<usize>
        ensures lowest { MatchOption result (slot_count ≤ lowest_free self.now) (λ i. (i ≡ lowest_free self.now) × (i < slot_count)) }
    {
        self.slots.iter().position(|slot| slot.is_none())
    }

    // The book in slot i goes.
    pub fn remove(&mut self, i: usize) -> Result<(), Refusal>
        ensures answer { result ≡ (removed self.old i).answer }
        ensures queue { self.new ≡ (removed self.old i).queue }
    {
        if self.look(i).is_none() {
            return Err(Refusal::Empty);
        }
        self.slots[i] = None;
        Ok(())
    }
}
