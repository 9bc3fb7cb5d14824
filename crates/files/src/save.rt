// A file replaced whole: at every instant its name leads to all of the old bytes or all of the new.
//
// The new bytes go to a fresh name in the same folder and reach the disk before that name takes the
// place of the file's own; then the folder is synced, so that the change itself lasts. Two saves at
// once use two names, and the later change stands. The file is its owner's alone. A save that is
// killed may leave its fresh name behind, and nothing reads that.
ghost use Rattle.io.specs.Counts.{IsPrefixLen};

use crate::complain::{Complain, fail};
use crate::path;
use crate::path::as_text;
use std::fs;
use std::fs::{OpenFile, OpenOptions};
use std::io::{Error, ErrorKind, Result, Write};
use std::os::unix::fs::OpenOptionsExt;
use std::random::RandomSource;
use std::rt::Files;

// The most bytes of a path.
pub const LONGEST_PATH: usize = 4095;

// The most bytes of a path at which can be saved: the fresh name has 7 more.
pub const LONGEST_SAVED: usize = LONGEST_PATH - 7;

// Saves the bytes, which come in two parts, at path; if it can't, standard error says why, behind `whose`.
pub fn save<R: Files + RandomSource + Complain>(
    rt: &R,
    whose: &[u8],
    path: &[u8],
    front: &[u8],
    back: &[u8],
) -> Result<()> {
    replace(rt, path, front, back).inspect_err(|why| fail(rt, whose, path, *why))
}

// Removes the file at path, if there is one, so that its absence lasts; if it can't, that is told likewise.
pub(crate) fn remove<R: Files + Complain>(rt: &R, whose: &[u8], path: &[u8]) -> Result<()> {
    unlink(rt, path).inspect_err(|why| fail(rt, whose, path, *why))
}

fn unlink<R: Files>(rt: &R, path: &[u8]) -> Result<()> {
    let folder = open_folder(rt, path)?;
    match fs::remove_file(rt, as_text(path)?) {
        Err(why) if why.kind() != ErrorKind::NotFound => Err(why),
        _ => folder.sync_all(),
    }
}

// The folder that holds path: all of path up to its last slash, or where the program runs.
fn open_folder<R: Files>(rt: &R, path: &[u8]) -> Result<R::File> {
    let n = find_name(path);
    if n == 0 {
        return path::open(rt, b".");
    }
    path::open(rt, &path[..n])
}

// Where the part after the last slash starts.
fn find_name(path: &[u8]) -> usize
    ensures within { IsPrefixLen result path.now }
{
    path.iter().rposition(|b| *b == b'/').map_or(0, |i| i + 1)
}

// The folder is opened first: then only its sync can fail once path has changed.
fn replace<R: Files + RandomSource>(rt: &R, path: &[u8], front: &[u8], back: &[u8]) -> Result<()> {
    let folder = open_folder(rt, path)?;
    let mut room = [0u8; LONGEST_PATH];
    let (file, n) = create_beside(rt, path, &mut room)?;
    let name = as_text(crate::take_front(&room, n))?;
    if let Err(why) = put_in_place(rt, file, name, path, front, back) {
        let _ = fs::remove_file(rt, name);
        return Err(why);
    }
    folder.sync_all()
}

fn put_in_place<R: Files>(
    rt: &R,
    file: R::File,
    name: &str,
    path: &[u8],
    front: &[u8],
    back: &[u8],
) -> Result<()> {
    write_through(file, front, back)?;
    fs::rename(rt, name, as_text(path)?)
}

// Writes the bytes and waits until they are on the disk.
fn write_through<F: Write + OpenFile + Drop>(file: F, front: &[u8], back: &[u8]) -> Result<()> {
    let mut file = file;
    file.write_all(front)?;
    file.write_all(back)?;
    file.sync_all()
}

// How many fresh names are tried.
const MOST_NAMES: u64 = 238328;

const LETTERS: [u8; 62] = *b"abcdefghijklmnopqrstuvwxyzABCDEFGHIJKLMNOPQRSTUVWXYZ0123456789";

// What the system says of a name that it can't make.
const INVALID: i32 = 22;

// Makes a file of a fresh name beside path: path with `.` and six letters or digits behind it, which
// is put at the start of room, and answers its length too.
fn create_beside<R: Files + RandomSource>(
    rt: &R,
    path: &[u8],
    room: &mut [u8],
) -> Result<(R::File, usize)> {
    if LONGEST_SAVED < path.len() {
        return Err(Error::from_raw_os_error(INVALID));
    }
    let first = pick(rt);
    for i in 0..MOST_NAMES {
        let n = name_beside(path, first.wrapping_add(i), room);
        match create(rt, as_text(crate::take_front(room, n))?) {
            Ok(file) => {
                return Ok((file, n));
            }
            Err(why) if why.kind() != ErrorKind::AlreadyExists => {
                return Err(why);
            }
            Err(_) => {}
        }
    }
    Err(Error::from(ErrorKind::AlreadyExists))
}

// Any number: which one, the system decides by chance. If it can't, a name may have to be tried twice.
fn pick<R: RandomSource>(rt: &R) -> u64 {
    let mut bytes = [0u8; 8];
    let _ = rt.fill_bytes(&mut bytes);
    u64::from_le_bytes(bytes)
}

fn create<R: Files>(rt: &R, name: &str) -> Result<R::File> {
    let mut how = OpenOptions::new();
    how.read(true).write(true).create_new(true).mode(0o600);
    how.open(rt, name)
}

// Puts path with `.` and six letters by the number behind it at the start of room, and answers its length.
fn name_beside(path: &[u8], number: u64, room: &mut [u8]) -> usize
    ensures within { IsPrefixLen result room.new }
{
    let n = crate::put(room, 0, path);
    let n = crate::put(room, n, b".");
    crate::put(room, n, &take_letters(number))
}

fn take_letters(number: u64) -> [u8; 6] {
    let mut letters = [0u8; 6];
    let mut left = number;
    for letter in letters.iter_mut() {
        *letter = LETTERS[(left % 62) as usize];
        left /= 62;
    }
    letters
}
