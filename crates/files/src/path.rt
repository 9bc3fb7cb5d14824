// Files by their paths, which are bytes here and text to std.
use crate::complain::{Complain, fail};
use std::io::{Error, ErrorKind, Result};
use std::rt::Files;
use std::{fs, str};

// What the system itself says of a name whose bytes it can't take.
const ILLEGAL_BYTES: i32 = 84;

// A path that is no text leads nowhere.
pub(crate) fn as_text(path: &[u8]) -> Result<&str> {
    str::from_utf8(path).map_err(|_| Error::from_raw_os_error(ILLEGAL_BYTES))
}

// Opens the file for reading.
pub(crate) fn open<R: Files>(rt: &R, path: &[u8]) -> Result<R::File> {
    fs::open(rt, as_text(path)?)
}

// Opens it likewise; if it can't, standard error says why.
pub(crate) fn open_told<R: Files + Complain>(rt: &R, whose: &[u8], path: &[u8]) -> Result<R::File> {
    open(rt, path).inspect_err(|why| fail(rt, whose, path, *why))
}

// Opens it likewise, if there is one.
pub(crate) fn open_if_there<R: Files + Complain>(
    rt: &R,
    whose: &[u8],
    path: &[u8],
) -> Result<Option<R::File>> {
    match open(rt, path) {
        Ok(file) => Ok(Some(file)),
        Err(why) => {
            if why.kind() == ErrorKind::NotFound {
                return Ok(None);
            }
            fail(rt, whose, path, why);
            Err(why)
        }
    }
}
