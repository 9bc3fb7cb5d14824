// The unit lines and the fuel lines of a book: whether they are sound, and the line with a number.
ghost use Rattle.std.specs.Prelude.{◌≡◌, ◌≤◌, length};
ghost use Rattle.rules.specs.Bytes.{lines_in};
ghost use Rattle.rules.specs.Book.{unit_head_ok, kind_class_ok, molar_volume_ok, fuel_head_ok, lines_sound};
ghost use Rattle.rules.specs.Place.{place};
ghost use Rattle.rules.specs.Listing.{line_ok, Rising, head_ok, blank_from};

use crate::bytes::Line;
use crate::{bytes, listed};

#[derive(Clone, Copy)]
pub enum Sort {
    Unit,
    Fuel,
}

const MOST_LINES: usize = 64;

// Whether there are at most 64 lines of one sort, their numbers rise strictly, and none breaks a
// rule. The scan is left at the first line that does, from the test that it fails.
pub(crate) fn are_sound(s: &[u8], sort: Sort) -> bool
    ensures sound { result ≡ lines_sound (line_ok sort) s.now }
{
    let n = s.len() / 32;
    if n > MOST_LINES {
        return false;
    }
    let mut ok = true;
    let mut before: u64 = 0;
    'lines: for i in 0..n {
        let l = bytes::take_line(s, i);
        let number = listed::number(l);
        if number <= before {
            ok = false;
            break 'lines;
        }
        if !is_head_right(l, sort) {
            ok = false;
            break 'lines;
        }
        if !bytes::are_zero(l, blank_from(sort), 32) {
            ok = false;
            break 'lines;
        }
        before = number;
    }
    ok
}

fn is_head_right(l: &Line, sort: Sort) -> bool
    ensures head { result ≡ head_ok sort l.now }
{
    match sort {
        Sort::Unit => is_unit_head_right(l),
        Sort::Fuel => is_fuel_head_right(l),
    }
}

// The byte from which no field of a line of this sort is named.
fn blank_from(sort: Sort) -> usize
    ensures byte { result ≡ blank_from sort }
{
    match sort {
        Sort::Unit => 8,
        Sort::Fuel => 24,
    }
}

// The flags and the byte behind them, which must be 0, are one number: 2 would be dry gas without a monitor.
fn is_unit_head_right(u: &Line) -> bool
    ensures head { result ≡ unit_head_ok u.now }
{
    let flags = bytes::read_word(u, 2, 2);
    let rating = listed::rating(u);
    (flags <= 3) & (flags != 2) & (1 <= rating) & (rating <= 100000)
}

fn is_fuel_head_right(f: &Line) -> bool
    ensures head { result ≡ fuel_head_ok f.now }
{
    let fits = do_agree(listed::fuel_kind(f), listed::fuel_class(f));
    let heat = listed::default_heat(f);
    let co2 = listed::co2_factor(f);
    let ch4 = listed::ch4_factor(f);
    let n2o = listed::n2o_factor(f);
    let volume_right = is_molar_volume_right(listed::molar_volume(f));
    fits & (heat <= 200000)
        & (1 <= co2)
        & (co2 <= 200000)
        & (ch4 <= 200000)
        & (n2o <= 200000)
        & volume_right
}

fn is_molar_volume_right(volume: u32) -> bool
    ensures right { result ≡ molar_volume_ok volume }
{
    ((volume == 0) | (20000 <= volume)) & (volume <= 27000)
}

// Class 1 goes with kind 3, 2 with 2 and 3 with 1: the two come to 4.
fn do_agree(kind: u8, class: u8) -> bool
    ensures agree { result ≡ kind_class_ok kind class }
{
    let known = (1 <= kind) & (kind <= 3);
    known & ((class == 0) | (kind as u32 + class as u32 == 4))
}

// The place of the line with this number. By the last ten bits of a number the hints say where its
// line may stand. A hint is held against the line and never trusted, so that any bytes serve.
pub(crate) fn find(s: &[u8], hints: &[u8], x: u64) -> Option<usize>
    requires rising { Rising s.now }
    ensures place { result ≡ place x 0 (lines_in s.now) }
{
    let last = (x % 1024) as usize;
    if last < hints.len() {
        let hint = hints[last] as usize;
        if hint < s.len() / 32 {
            if listed::number(bytes::take_line(s, hint)) == x {
                return Some(hint);
            }
        }
    }
    halve(s, x)
}

// The place of the line with this number. Of 64 lines seven are looked at: each turn leaves half of those from `low` on,
// and the line that is left is held against the number.
fn halve(s: &[u8], x: u64) -> Option<usize>
    requires rising { Rising s.now }
    ensures place { result ≡ place x 0 (lines_in s.now) }
{
    let mut width = s.len() / 32;
    if width == 0 {
        return None;
    }
    let above = 65536 + x % 65536;
    let mut low = 0;
    while 1 < width {
        let half = width / 2;
        let number = listed::number(bytes::take_line(s, low + half));
        // 1 where the number isn't past x, else 0: no jump hangs on it, of which a processor foresees half.
        let upper = (above - number) / 65536;
        low = low + half * upper as usize;
        width = width - half;
    }
    if listed::number(bytes::take_line(s, low)) == x {
        return Some(low);
    }
    None
}
