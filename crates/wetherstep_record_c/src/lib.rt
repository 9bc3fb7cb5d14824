// The call of `wetherstep_record` as C links it: include/wetherstep.h declares it. It is an archive of
// its own: beside a second caller the compiler no longer puts the judging of a record into the loop of
// a wake.
#![tactic(auto)]

ghost use Rattle.std.specs.Prelude.{◌≡◌};
ghost use Rattle.rules.specs.Reader.{sight_at};
ghost use Rattle.wetherstep_record.specs.Face.{record_word, masses_after};

use wetherstep_record::face;

#[unsafe(no_mangle)]
pub extern "C" fn wetherstep_record(book: &[u8], index: u32, masses: &mut [u64; 3]) -> u64
    ensures word { result ≡ record_word (sight_at book.now index) }
    ensures masses { masses.new ≡ masses_after (sight_at book.now index) masses.old }
{
    face::wetherstep_record(book, index, masses)
}
