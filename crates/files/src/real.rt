// The path by which the system knows a file, so that two names of one file can be told.
ghost use Rattle.std.specs.Prelude.{◌≡◌, IfErr};
ghost use Rattle.files.specs.declared.kept.Stopped.TheVariants.{Failed};

use crate::complain::{Complain, tell};
use crate::kept::Stopped;
use crate::{PATH_ROOM, path};
use std::fs;
use std::os::unix::fs::MetadataExt;
use std::rt::Files;

// Puts it at the start of room. Where it is no text or isn't known, the numbers of the device and the file
// stand for it, behind a sign that begins no path; where these aren't known either, room keeps its bytes.
pub(crate) fn find_path<R: Files + Alloc>(rt: &R, path: &[u8], room: &mut [u8]) {
    let Ok(text) = path::as_text(path) else {
        return;
    };
    match fs::canonicalize(rt, text) {
        Ok(found) => {
            crate::put(room, 0, found.as_str().as_bytes());
        }
        Err(_) => put_numbers(rt, text, room),
    }
}

fn put_numbers<R: Files>(rt: &R, text: &str, room: &mut [u8]) {
    let Ok(found) = fs::metadata(rt, text) else {
        return;
    };
    let n = crate::put(room, 0, b"=");
    let n = crate::put(room, n, &found.dev().to_le_bytes());
    crate::put(room, n, &found.ino().to_le_bytes());
}

// The file at path, if there is one, has to be another than the book's, whose own path stands in real
// with zeros behind it; if it isn't, standard error says so.
pub(crate) fn check_apart<R: Files + Alloc + Complain>(
    rt: &R,
    whose: &[u8],
    path: &[u8],
    real: &[u8],
) -> Result<(), Stopped>
    ensures failed { IfErr result (λ e. e ≡ Failed) }
{
    let mut room = [0u8; PATH_ROOM];
    find_path(rt, path, &mut room);
    if room[0] != 0 && room.as_slice() == real {
        tell(rt, whose, path, b": is the book itself\n");
        return Err(Stopped::Failed);
    }
    Ok(())
}
