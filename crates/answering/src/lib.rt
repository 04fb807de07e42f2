// One line is answered on the book and the papers beside it: what it asks for is done, and the answer is printed.

#![tactic(auto)]

ghost use Rattle.std.specs.Prelude.{◌≡◌, ◌+◌, ◌≤◌, length};
ghost use Rattle.tools.specs.Lists.{byte, tab};
ghost use Rattle.rules.specs.Setups.{setup_with};
ghost use Rattle.rules.specs.Model;
ghost use Rattle.rules.specs.Calls.{start, on};
ghost use Rattle.rules.specs.Replies.{done_says, pictured_says, foretold_says};
ghost use Rattle.book.specs.Layout.{seats, spot, tag_b_spot};
ghost use Rattle.book.specs.Answers.{answer_to};
ghost use Rattle.office.specs.Office.{folder, office_answer, folder_after};
ghost use Rattle.text.specs.Put.{Wrote};
ghost use Rattle.commands.specs.Lines.{numbers_in};
ghost use Rattle.replies.specs.Print.{longest};
ghost use Rattle.answering.specs.Answering.{may_on, line_text, line_folder};

use commands::{Command, Numbers};
use parts::BookBytes;
use replies::put_answer;
use rules::{GivenSetup, Odds, Refusal, SetupNumbers};

// Start, with the limits of a line. Here and below the numbers are listed apart from `answer`, so that no other line pays for the list.
fn begin(
    book: &mut [u8],
    summary: &mut [u8],
    numbers: SetupNumbers,
    limits: Numbers<'_>,
) -> Result<(), Refusal>
    ensures result_value { done_says result ≡ office_answer (folder book.old summary.old)
        (start (setup_with numbers (numbers_in limits.entry.text.now))) }
    ensures summary_after { folder book.new summary.new ≡ folder_after (folder book.old summary.old)
        (start (setup_with numbers (numbers_in limits.entry.text.now))) }
{
    let limits = limits.list();
    let setup = GivenSetup {
        numbers,
        limits: limits.as_slice(),
    };
    office::start(book, summary, setup)
}

// Picture, of the slots of a line.
fn ask_picture(book: &[u8], slots: Numbers<'_>) -> Result<Option<Odds>, Refusal>
    ensures { pictured_says result ≡ answer_to book.now (on (Model.picture (numbers_in slots.entry.text.now))) }
{
    let slots = slots.list();
    portal::picture(book, slots.as_slice())
}

// The limits in the eight seats of a book. A loop, since of an array made by a closure nothing tells which book the closure asked.
fn limits_of(book: &BookBytes) -> [usize; 8]
    ensures { result ≡ tab 0 seats (λ j. byte book.now (spot j tag_b_spot)) }
{
    let mut limits = [0; parts::SEATS];
    for j in 0..parts::SEATS {
        limits[j] = usize::from(parts::tag_b(book, j));
    }
    limits
}

// May, by the summary held and the setup that the book tells. No setup of more desks than seats is permitted.
fn ask_may(book: &[u8], summary: &[u8], desk: usize) -> Result<Option<Refusal>, Refusal>
    ensures { foretold_says result ≡ may_on (folder book.now summary.now) desk }
{
    let book = book
        .as_array::<{ parts::BOOK_BYTES }>()
        .ok_or(Refusal::BadSetup)?;
    let all = limits_of(book);
    let limits = all.get(..parts::desks_of(book)).ok_or(Refusal::BadSetup)?;
    let numbers = parts::numbers_of(book);
    let setup = GivenSetup { numbers, limits };
    summary::may(setup, summary, desk)
}

// A line is answered: what its command asks for is done, and the answer is written from a place on; a BadLine asks for nothing. The
// result is the place after it.
pub fn answer(book: &mut [u8], summary: &mut [u8], out: &mut [u8], at: usize, line: &[u8]) -> usize
    requires { at + longest ≤ length out.old }
    ensures wrote { Wrote out.old at (line_text (folder book.old summary.old) line.now) out.new result }
    ensures summary_after { folder book.new summary.new ≡ line_folder (folder book.old summary.old) line.now }
{
    let desks = portal::desks_in(&book[..]);
    let Some(command) = commands::parse(line) else {
        return put_answer(out, at, desks, Err::<(), _>(Refusal::BadLine));
    };
    match command {
        Command::Start(s, limits) => put_answer(out, at, desks, begin(book, summary, s, limits)),
        Command::Local(d, q) => put_answer(out, at, desks, office::local(book, summary, d, q)),
        Command::Send(d, k, q) => put_answer(out, at, desks, office::send(book, summary, d, k, q)),
        Command::Receive(d, p, q) => put_answer(
            out,
            at,
            desks,
            office::receive(book, summary, d, p, q),
        ),
        Command::Reset(d, q) => put_answer(out, at, desks, office::reset(book, summary, d, q)),
        Command::Drop(s) => put_answer(out, at, desks, office::drop(book, summary, s)),
        Command::Discard(p) => put_answer(out, at, desks, office::discard(book, summary, p)),
        Command::Before(s, t) => put_answer(out, at, desks, portal::before(book, s, t)),
        Command::Compare(s, t) => put_answer(out, at, desks, portal::compare(book, s, t)),
        Command::May(d) => put_answer(out, at, desks, ask_may(book, summary, d)),
        Command::Picture(slots) => put_answer(out, at, desks, ask_picture(book, slots)),
    }
}
