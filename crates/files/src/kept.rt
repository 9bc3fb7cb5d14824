// A job between its files: what ties its checkpoint to its book, where it stands, and one wake of it
// that is saved. Whatever fails before the save leaves no checkpoint that passes for another book's.
ghost use Rattle.std.specs.Prelude.{◌≡◌, length, IfErr};
ghost use Rattle.job.specs.Wake.{fresh_reply, fresh_bytes, wake_reply, wake_bytes};
ghost use Rattle.files.specs.declared.kept.Stopped.TheVariants.{Refused, Failed};
ghost use Rattle.files.specs.Guard.{due_of};
ghost use Rattle.files.specs.Kept.{replied, placed, counting, anew_reply, anew_bytes, DueOf, Found, Begun, FoundBy, Saved};

use crate::complain::{Complain, tell};
use crate::copy::Compared;
use crate::{copy, path, real, save};
use job::checkpoint;
use job::reply::Refusal;
use rules::book;
use std::io;
use std::random::RandomSource;
use std::rt::Files;

// What is due before a wake of a book may be saved.
#[derive(Clone, Copy, PartialEq, Eq)]
pub enum Due {
    // The copy is this book.
    Nothing,
    // There is no copy, and a checkpoint is taken at its word.
    Copy,
    // The copy is another book, or a new start is asked for: the checkpoint goes, then the copy comes.
    Anew,
}

// Why a job goes no further.
#[derive(Clone, Copy)]
pub enum Stopped {
    // The book, the checkpoint or a buffer is refused.
    Refused(Refusal),
    // Standard error says what failed.
    Failed,
}

impl From<Refusal> for Stopped {
    ghost from_gives = { λ x e. e ≡ Refused x };

    fn from(x: Refusal) -> Stopped {
        Stopped::Refused(x)
    }
}

// Only what was told becomes this, as each call here tells its own.
impl From<io::Error> for Stopped {
    ghost from_gives = { λ _ e. e ≡ Failed };

    fn from(_why: io::Error) -> Stopped {
        Stopped::Failed
    }
}

// What is due for a wake of the book, whose own path is real and whose job has its checkpoint at path.
pub fn find_due<R: Files + Alloc + Complain>(
    rt: &R,
    book: &[u8],
    real: &[u8],
    whose: &[u8],
    path: &[u8],
    anew: bool,
) -> Result<Due, Stopped>
    ensures due { DueOf result book.now anew }
{
    match book::open(book) {
        Err(fault) => Err(Stopped::Refused(Refusal::Book(fault))),
        Ok(_h) => {
            real::check_apart(rt, whose, path, real)?;
            Ok(decide(copy::compare(rt, whose, path, book, real)?, anew))
        }
    }
}

#[tactic(auto, unfolding(crate::specs::Guard::due_of))]
fn decide(compared: Compared, anew: bool) -> Due
    ensures due { result ≡ due_of compared anew }
{
    match compared {
        Compared::Other => Due::Anew,
        _ if anew => Due::Anew,
        Compared::Missing => Due::Copy,
        Compared::Same => Due::Nothing,
    }
}

// Where the job stands: at a fresh start, if one is due or there is no checkpoint at path; else at that
// checkpoint. So many bytes of a checkpoint stand at the start of room then; a fresh start that is refused
// leaves room as it was, and so does a job that had stopped before.
pub fn find_place<R: Files + Complain>(
    rt: &R,
    book: &[u8],
    due: Result<Due, Stopped>,
    whose: &[u8],
    path: &[u8],
    room: &mut [u8],
) -> Result<usize, Stopped>
    ensures found { FoundBy due result book.now room.old room.new }
{
    match due {
        Ok(Due::Nothing | Due::Copy) => read_place(rt, book, whose, path, room),
        Ok(Due::Anew) => replace_place(rt, book, whose, path, room),
        Err(why) => Err(why),
    }
}

// Only a checkpoint that isn't there is a reason to start afresh unasked.
fn read_place<R: Files + Complain>(
    rt: &R,
    book: &[u8],
    whose: &[u8],
    path: &[u8],
    room: &mut [u8],
) -> Result<usize, Stopped>
    ensures found { Found result book.now room.old room.new }
{
    let Some(file) = path::open_if_there(rt, whose, path)? else {
        return start_anew(book, room);
    };
    let n = crate::read_open(rt, file, whose, path, room)?;
    Ok(n)
}

// A fresh start takes the place of what could be a checkpoint, and of nothing else.
fn replace_place<R: Files + Complain>(
    rt: &R,
    book: &[u8],
    whose: &[u8],
    path: &[u8],
    room: &mut [u8],
) -> Result<usize, Stopped>
    ensures begun { Begun result book.now room.old room.new }
{
    check_replaceable(rt, whose, path)?;
    start_anew(book, room)
}

// What is at path has to be missing, empty or as long as a checkpoint; if it isn't, standard error says so.
fn check_replaceable<R: Files + Complain>(rt: &R, whose: &[u8], path: &[u8]) -> Result<(), Stopped>
    ensures failed { IfErr result (λ e. e ≡ Failed) }
{
    let Some(file) = path::open_if_there(rt, whose, path)? else {
        return Ok(());
    };
    let mut room = [0u8; crate::CHECKPOINT_ROOM];
    let n = crate::read_open(rt, file, whose, path, &mut room)?;
    if n == 0 || n == checkpoint::SIZE {
        return Ok(());
    }
    tell(
        rt,
        whose,
        path,
        b": neither empty nor as long as a checkpoint, so it is left as it is\n",
    );
    Err(Stopped::Failed)
}

// A fresh start's checkpoint at the start of room, whatever is kept. A room that is shorter than that
// is refused as job's calls refuse a buffer.
pub fn start_anew(book: &[u8], room: &mut [u8]) -> Result<usize, Stopped>
    ensures place { placed result ≡ replied (anew_reply book.now room.old) }
    ensures bytes { room.new ≡ anew_bytes book.now room.old }
{
    if room.len() < checkpoint::SIZE {
        return begin(book, room);
    }
    begin(book, &mut room[..checkpoint::SIZE])
}

fn begin(book: &[u8], out: &mut [u8]) -> Result<usize, Stopped>
    ensures place { placed result ≡ replied (counting (length out.old) (fresh_reply book.now out.old)) }
    ensures bytes { out.new ≡ fresh_bytes book.now out.old }
{
    job::wake::fresh(book, out)?;
    Ok(out.len())
}

// Says on standard error that the job starts anew, if what is due comes of another book than it was
// begun with.
pub fn tell_change<R: Complain>(rt: &R, due: Result<Due, Stopped>, book_path: &[u8], path: &[u8]) {
    if let Ok(Due::Anew) = due {
        tell(rt, book_path, b" has changed since ", path);
        rt.complain(b" was begun: the job starts anew\n");
    }
}

// One wake from a checkpoint, with what is due before it: how many records were gone through, once what it
// saves at path is saved. That is left in saved.
pub fn wake<R: Files + RandomSource + Complain>(
    rt: &R,
    book: &[u8],
    from: &[u8],
    budget: u32,
    due: Result<Due, Stopped>,
    whose: &[u8],
    path: &[u8],
    saved: &mut [u8],
) -> Result<u32, Stopped>
    ensures saved { Saved result (wake_reply book.now from.now budget saved.old) }
    ensures bytes { saved.new ≡ wake_bytes book.now from.now budget saved.old }
{
    let moved = job::wake::wake(book, from, budget, saved).map_err(Stopped::Refused)?;
    settle(rt, due, whose, path, book)?;
    save::save(rt, whose, path, saved, b"")?;
    Ok(moved)
}

// Does what is due before a checkpoint is saved. The old checkpoint is gone for good before the copy is
// another book, so that no stop leaves the two side by side.
fn settle<R: Files + RandomSource + Complain>(
    rt: &R,
    due: Result<Due, Stopped>,
    whose: &[u8],
    path: &[u8],
    book: &[u8],
) -> Result<(), Stopped>
    ensures failed { IfErr result (λ e. e ≡ Failed) }
{
    match due {
        Ok(Due::Nothing) => {}
        Ok(Due::Copy) => copy::keep(rt, whose, path, book)?,
        Ok(Due::Anew) => {
            save::remove(rt, whose, path)?;
            copy::keep(rt, whose, path, book)?;
        }
        Err(_) => return Err(Stopped::Failed),
    }
    Ok(())
}
