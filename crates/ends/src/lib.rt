// The ends of the program, standard input and standard output: what becomes of the run at them, and what is said where one fails.

#![tactic(auto)]

ghost use Rattle.std.specs.Prelude.{◌≡◌};
ghost use Rattle.ends.specs.Ends.{reason_kind, failure_went, read_went, write_went, word_of};

use std::io;
use std::io::{Error, ErrorKind};

// Why the run stops: the input has ended; nobody reads the output any more; or an end has failed, for a reason of the system's if it
// has one.
#[derive(Clone, Copy)]
pub enum Stop {
    Ended,
    Gone,
    Unread(Option<Error>),
    Unwritten(Option<Error>),
}

// The kind of a reason, by the system's number where it has one.
fn reason_kind(e: Error) -> ErrorKind
    ensures { result ≡ reason_kind e }
{
    match e.raw_os_error() {
        Some(number) => Error::from_raw_os_error(number).kind(),
        None => e.kind(),
    }
}

// What becomes of the run where a call fails: it is made again, no byte moved, or the run stops. Other programs run while an end is
// not ready.
fn failure_went(e: Error, bad: Stop) -> Result<usize, Stop>
    ensures { result ≡ failure_went e bad }
{
    match reason_kind(e) {
        ErrorKind::WouldBlock => {
            std::thread::yield_now();
            Ok(0)
        }
        ErrorKind::Interrupted => Ok(0),
        ErrorKind::BrokenPipe => Err(Stop::Gone),
        _ => Err(bad),
    }
}

// How many bytes a read has moved, or why the run stops at it: no byte is the end of the input.
pub fn read_went(done: io::Result<usize>) -> Result<usize, Stop>
    ensures { result ≡ read_went done }
{
    match done {
        Ok(0) => Err(Stop::Ended),
        Ok(n) => Ok(n),
        Err(e) => failure_went(e, Stop::Unread(Some(e))),
    }
}

// The same of a write, which moves a byte or fails. One that moves none has no reason. Written out: a function of both would be lent
// the two ways to stop, and be no shorter.
pub fn write_went(done: io::Result<usize>) -> Result<usize, Stop>
    ensures { result ≡ write_went done }
{
    match done {
        Ok(0) => Err(Stop::Unwritten(None)),
        Ok(n) => Ok(n),
        Err(e) => failure_went(e, Stop::Unwritten(Some(e))),
    }
}

// What the program says at its end, before the reason.
pub fn word(stop: Stop) -> &'static [u8]
    ensures { result.now ≡ word_of stop }
{
    match stop {
        Stop::Ended => b"",
        Stop::Gone => b"",
        Stop::Unread(_) => b"desks: standard input",
        Stop::Unwritten(_) => b"desks: standard output",
    }
}
