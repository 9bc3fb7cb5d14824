// The place in the round.
ghost use Rattle.std.specs.Prelude.{◌≡◌};
ghost use Rattle.roster.specs.Place.{placed};

use crate::lines::Lines;

// If the kept text says nothing of the list, slot 15 counts as served last: the round begins at slot 0.
const NONE: usize = 15;

// The place in the list that a kept text keeps: the index of its last line that is a line of the list.
pub fn find(list: &[u8], kept: &[u8]) -> usize
    ensures place { result ≡ placed list.now kept.now }
{
    let mut place = NONE;
    for line in Lines(kept) {
        place = Lines(list)
            .position(|listed| listed == line)
            .unwrap_or(place);
    }
    place
}
