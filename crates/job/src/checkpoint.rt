// A checkpoint: read, judged and written.
ghost use Rattle.std.specs.Prelude.{◌++◌, ◌≡◌, ◌+◌, ◌*◌, ◌<◌, length, take, drop, slice_index};
ghost use Rattle.choice.specs.Tests.{◌also◌};
ghost use Rattle.job.specs.State as state;
ghost use Rattle.job.specs.Checkpoint.{checkpoint_size, ledger_place, gap_in, first_sound, ledger_sound, every, sound, laid, encode, counts_in};
ghost use Rattle.job.specs.Words.{words, counts_at, ledger_in, masses_on, state_on, Light};

use crate::counts::{Aside, Counts};
use crate::ledgers;
use crate::put::put;
use mass::Ng;
use mass::ledger::{Ledger, NG_PER_TONNE};
use rules::book::Head;
use rules::bytes::{are_zero, read_word};
use rules::record::LAST_REASON;

// How many bytes a checkpoint has.
pub const SIZE: usize = 96;

// Where each field stands.
const DONE: usize = 0;

const ASIDE: usize = 4;

const INDEX: usize = 8;

const REASON: usize = 12;

const LEDGERS: usize = 16;

const LENGTH: usize = 80;

const YEAR: usize = 84;

const BLANK: usize = 86;

// The last word of the blank.
const BLANK_WORD: usize = 88;

// How many bytes a ledger has: 8 for its tonnes, 8 for its rest.
const LEDGER_SIZE: usize = 16;

// The most that a record gives to a ledger.
const TONNES_EACH: u64 = 4_000_000;

// One more than four bytes hold.
const FOUR_BYTES: u64 = 4_294_967_296;

fn find_ledger(k: usize) -> usize
    requires place { k < state.ledgers }
    ensures place { result ≡ ledger_place k }
{
    LEDGERS + LEDGER_SIZE * k
}

pub(crate) fn read_counts(c: &[u8]) -> Counts
    requires whole { length c.now ≡ checkpoint_size }
    ensures counts { result ≡ counts_in c.now }
{
    let done = read_word(c, DONE, 4) as u32;
    let aside = read_word(c, ASIDE, 4) as u32;
    let index = read_word(c, INDEX, 4) as u32;
    let reason = read_word(c, REASON, 1) as u8;
    Counts {
        done,
        aside,
        index,
        reason,
    }
}

// The ledger at place k.
pub(crate) fn read_ledger(c: &[u8], k: usize) -> Ledger
    requires whole { (length c.now ≡ checkpoint_size) × (k < state.ledgers) }
    ensures ledger { result ≡ ledger_in c.now k }
{
    let at = find_ledger(k);
    let tonnes = read_word(c, at, 8);
    let rest = read_word(c, at + 8, 8);
    Ledger {
        tonnes,
        rest: Ng(rest),
    }
}

// Whether a checkpoint is sound for a book.
pub(crate) fn is_sound(h: Head, c: &[u8]) -> bool
    requires whole { length c.now ≡ checkpoint_size }
    ensures sound { result ≡ sound h c.now }
{
    let length = read_word(c, LENGTH, 4) as usize;
    let year = read_word(c, YEAR, 2);
    let done = read_word(c, DONE, 4) as usize;
    let aside = read_word(c, ASIDE, 4) as usize;
    let first = is_first_sound(c);
    let masses = are_ledgers_sound(c);
    let blank = are_zero(c, BLANK, SIZE);
    (length == h.length)
        & (year == h.year)
        & (done <= h.n)
        & (aside <= done)
        & first
        & masses
        & blank
}

// The reason is read with the bytes behind it that must be 0, as one number.
fn is_first_sound(c: &[u8]) -> bool
    requires whole { length c.now ≡ checkpoint_size }
    ensures first { result ≡ (first_sound c.now also gap_in c.now) }
{
    let index = read_word(c, INDEX, 4);
    let reason = read_word(c, REASON, 4);
    if read_word(c, ASIDE, 4) == 0 {
        return (index == 0) & (reason == 0);
    }
    let done = read_word(c, DONE, 4);
    (index < done) & (1 <= reason) & (reason <= LAST_REASON)
}

fn are_ledgers_sound(c: &[u8]) -> bool
    requires whole { length c.now ≡ checkpoint_size }
    ensures ledgers { result ≡ every (ledger_sound c.now) state.ledgers }
{
    let mut all = true;
    for k in 0..ledgers::COUNT {
        all &= is_ledger_sound(c, k);
    }
    all
}

fn is_ledger_sound(c: &[u8], k: usize) -> bool
    requires whole { (length c.now ≡ checkpoint_size) × (k < state.ledgers) }
    ensures ledger { result ≡ ledger_sound c.now k }
{
    let g = read_ledger(c, k);
    let done = read_word(c, DONE, 4);
    (g.rest.0 < NG_PER_TONNE) & (g.tonnes <= TONNES_EACH * done)
}

// Writes the checkpoint of a book with the head h at `place`, where `aside` tells of the records set aside; each ledger
// is what `from` says and w gives. The fields go two in a word: of eight bytes the compiler makes one store, of fewer one
// for each byte.
pub(crate) fn write(h: Head, place: u32, aside: &Aside, from: &[u8], w: &[u64], out: &mut [u8])
    requires whole { (length from.now ≡ checkpoint_size) × (length w.now ≡ words) × (length out.old ≡ checkpoint_size) }
    requires fits { (h.length < 4294967296) × (h.year < 65536) }
    requires light { Light from.now w.now }
    ensures written { out.new ≡ encode h (state_on (counts_at place aside.now) from.now w.now) }
{
    put(out, DONE, join(place, aside.count));
    // With the reason go the three bytes of 0 behind it.
    put(out, INDEX, join_reason(aside.index, aside.reason));
    write_ledgers(from, w, out);
    // With the year go the first two bytes of the blank.
    put(out, LENGTH, join(h.length as u32, h.year as u32));
    put(out, BLANK_WORD, 0);
}

// Two numbers of four bytes, as they stand behind each other.
fn join(low: u32, high: u32) -> u64
    ensures joined { (result ≡ low + 4294967296 * high) × (low < 4294967296) }
{
    u64::from(low) + FOUR_BYTES * u64::from(high)
}

// The same of a reason, which one byte holds, behind an index.
fn join_reason(index: u32, reason: u8) -> u64
    ensures joined { (result ≡ index + 4294967296 * reason) × (index < 4294967296) × (reason < 256) }
{
    join(index, u32::from(reason))
}

fn write_ledgers(from: &[u8], w: &[u64], out: &mut [u8])
    requires whole { (length from.now ≡ checkpoint_size) × (length w.now ≡ words) × (length out.old ≡ checkpoint_size) }
    requires light { Light from.now w.now }
    ensures written { out.new ≡ laid (take 16 out.old) (masses_on from.now w.now) ++ drop 80 out.old }
{
    for k in 0..ledgers::COUNT {
        let at = find_ledger(k);
        let g = ledgers::gather(read_ledger(from, k), k, w);
        put(out, at, g.tonnes);
        put(out, at + 8, g.rest.0);
    }
}
