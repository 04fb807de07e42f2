// Answers the lines of standard input on standard output, from a book of zeros and a summary of zeros on.

#![tactic(auto)]

ghost use Rattle.std.specs.Prelude.{◌≡◌, ℕ, length, take, Ok, Err};
ghost use Rattle.std.specs.Io.{ReadsAtMost};
ghost use Rattle.text.specs.Stream.{held, line_of, last_text, last_book};
ghost use Rattle.office.specs.Office.{folder};
ghost use Rattle.answering.specs.Answering.{answering};
ghost use Rattle.listing.specs.Feeding.{fed_text, Feeds};
ghost use Rattle.ends.specs.declared.Stop.TheVariants.{Ended};
ghost use Rattle.ends.specs.Ends.{read_went, outcome, moved, Writes, Goes, end_book};

use ends::Stop;
use std::io;
use std::io::{Error, Read, Write};
use std::process::ExitCode;
use text::Pending;

// A proved loop has to end, and nothing says that the input does, or that the output is ever ready. So a loop over either has a
// number of turns that no run uses up.
const TURNS: u64 = u64::MAX;

// How many bytes a read asks for, and a page has room for.
const SPACE: usize = 4096;

// The status of a program that SIGPIPE (13) has ended, as a shell tells it. The runtime ignores that signal, so a write fails instead.
const READER_GONE: u8 = 141;

// A text is written, and waited for as long as it takes.
fn write_out<W: Write>(output: &mut W, out: &[u8]) -> Result<(), Stop>
    ensures { Writes (W.contents output.old) (W.contents output.new) out.now result }
{
    let mut done = 0;
    for _ in 0..TURNS {
        if done >= out.len() {
            break;
        }
        done += ends::write_went(output.write(&out[done..]))?;
    }
    if done < out.len() {
        return Err(Stop::Unwritten(None));
    }
    Ok(())
}

// A piece is taken in; what it prints is written as often as the page is full, until that fails.
fn answer_piece<W: Write>(
    output: &mut W,
    book: &mut [u8],
    summary: &mut [u8],
    pending: &mut Pending,
    piece: &[u8],
) -> Result<(), Stop>
    ensures { (used : ℕ)
        × Feeds (held (folder book.old summary.old) (line_of pending.old)) piece.now used (folder book.new summary.new) (line_of pending.new)
        × Writes (W.contents output.old) (W.contents output.new)
        (fed_text (held (folder book.old summary.old) (line_of pending.old)) piece.now used) result
        × (result ≡ Ok tt → used ≡ length piece.now) }
{
    let mut page = [0; SPACE];
    let mut at = 0;
    // A while: a turn takes in as many bytes as there is room for.
    while at < piece.len() {
        let fed = listing::feed(book, summary, &mut page, pending, &piece[at..]);
        at += fed.used;
        write_out(output, &page[..fed.end])?;
    }
    Ok(())
}

// What a read has put into a space is taken in. A line that has begun waits for its end, also where the read failed.
fn take_turn<W: Write>(
    output: &mut W,
    book: &mut [u8],
    summary: &mut [u8],
    pending: &mut Pending,
    space: &[u8],
    done: io::Result<usize>,
) -> Result<(), Stop>
    requires { ReadsAtMost done space.now }
    ensures { (used : ℕ)
        × Feeds (held (folder book.old summary.old) (line_of pending.old))
        (take (moved (read_went done)) space.now) used (folder book.new summary.new) (line_of pending.new)
        × Goes (Ok tt) (outcome (read_went done)) result
        (fed_text (held (folder book.old summary.old) (line_of pending.old)) (take (moved (read_went done)) space.now) used)
        (W.contents output.old) (W.contents output.new)
        × (result ≡ Ok tt → used ≡ moved (read_went done)) }
{
    let n = ends::read_went(done)?;
    answer_piece(output, book, summary, pending, &space[..n])
}

// The input has ended: a line that has begun is answered.
fn last_turn<W: Write>(
    output: &mut W,
    book: &mut [u8],
    summary: &mut [u8],
    pending: &Pending,
) -> Result<(), Stop>
    ensures { (folder book.new summary.new ≡ last_book answering (held (folder book.old summary.old) (line_of pending.now)))
        × Writes (W.contents output.old) (W.contents output.new)
        (last_text answering (held (folder book.old summary.old) (line_of pending.now))) result }
{
    let mut line = [0; replies::LONGEST];
    let end = listing::finish(book, summary, &mut line, pending);
    write_out(output, &line[..end])
}

// How the run ends: where the input has ended, after its last line.
fn ending<W: Write>(
    output: &mut W,
    book: &mut [u8],
    summary: &mut [u8],
    pending: &Pending,
    stop: Stop,
) -> Result<(), Stop>
    ensures { (folder book.new summary.new ≡ end_book stop (held (folder book.old summary.old) (line_of pending.now)))
        × Goes (Err Ended) (Err stop) result
        (last_text answering (held (folder book.old summary.old) (line_of pending.now)))
        (W.contents output.old) (W.contents output.new) }
{
    let Stop::Ended = stop else {
        return Err(stop);
    };
    last_turn(output, book, summary, pending)
}

// Turn after turn, until the run stops. Where the input has ended, the last line is answered.
fn run<R: Read, W: Write>(
    input: &mut R,
    output: &mut W,
    book: &mut [u8],
    summary: &mut [u8],
) -> Result<(), Stop> {
    let mut space = [0; SPACE];
    let mut pending = Pending::new();
    for _ in 0..TURNS {
        let done = input.read(&mut space);
        if let Err(stop) = take_turn(output, book, summary, &mut pending, &space, done) {
            return ending(output, book, summary, &pending, stop);
        }
    }
    Err(Stop::Unread(None))
}

// Says which end has failed, and the reason. Where nobody can be told, nothing is left to do.
fn fail(said: &mut impl Write, what: &[u8], reason: Option<Error>) {
    let reason = reason.unwrap_or(Error::from_raw_os_error(0));
    let _ = said.write_all(what);
    let _ = writeln!(said, ": {reason}");
}

fn main(rt: HostRuntime) -> ExitCode {
    let mut book = [0; parts::BOOK_BYTES];
    let mut summary = [0; summary::SUMMARY_BYTES];
    let Err(stop) = run(&mut rt.stdin(), &mut rt.stdout(), &mut book, &mut summary) else {
        return ExitCode::SUCCESS;
    };
    match stop {
        Stop::Ended => ExitCode::SUCCESS,
        Stop::Gone => ExitCode::from(READER_GONE),
        Stop::Unread(reason) | Stop::Unwritten(reason) => {
            fail(&mut rt.stderr(), ends::word(stop), reason);
            ExitCode::FAILURE
        }
    }
}
