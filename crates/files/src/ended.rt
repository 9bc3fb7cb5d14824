// How a program ended, for whoever started it. It ends with the status 0 whatever it did, so tools/program
// starts it under a name that says where it is waited for, and makes a status of the digit that it
// finds there.
ghost use Rattle.std.specs.Prelude.{◌≡◌};
ghost use Rattle.files.specs.declared.ended.Ended.TheVariants.{Misused};

use crate::complain::Complain;
use std::rt::Env;

#[derive(Clone, Copy, PartialEq, Eq)]
pub enum Ended {
    // It did what it is for.
    Done,
    // Standard error says what failed.
    Failed,
    // Standard error says how it is called.
    Misused,
    // Standard output says what was refused.
    Refused,
}

// The descriptor on which the digit is waited for.
const WAITING: i32 = 3;

// Tells how the program ended, if that is waited for.
pub fn tell<R: Env>(rt: &R, e: Ended) {
    if is_waited_for(rt) {
        io::write_all(WAITING, &[take_digit(e)]);
    }
}

fn is_waited_for<R: Env>(rt: &R) -> bool {
    let mut name = [0u8; 11];
    match rt.arg(0, &mut name) {
        Ok(n) => &name[..n] == b"status-on-3".as_slice(),
        Err(_) => false,
    }
}

// Says on standard error how the program is called.
pub fn misuse<R: Complain>(rt: &R, words: &[u8]) -> Ended
    ensures misused { result ≡ Misused }
{
    rt.complain(words);
    Ended::Misused
}

fn take_digit(e: Ended) -> u8 {
    match e {
        Ended::Done => b'0',
        Ended::Failed => b'1',
        Ended::Misused => b'2',
        Ended::Refused => b'3',
    }
}
