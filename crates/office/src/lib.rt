// The office: start and every change, made with the book and the papers beside it. Each asks the book's reasons first, then the
// papers'; accepted, it leaves every paper right of the book. A further paper is a further buffer of each call, a reason in
// papers_number and a line in file.

#![tactic(auto)]

ghost use Rattle.std.specs.Prelude.{◌≡◌, ◌≢◌, true, ℕ, List, length, Result, Ok, Err};
ghost use Rattle.std.specs.Option.{unwrap_or};
ghost use Rattle.std.specs.Result.{result_err};
ghost use Rattle.std.specs.Fn.{FnOnceReturnsAt, FnOnceReturnsAtMut};
ghost use Rattle.rules.specs.declared.Refusal.{Refusal};
ghost use Rattle.rules.specs.declared.Refusal.TheVariants.{BadSummary};
ghost use Rattle.tools.specs.Reasons.{first, if_done};
ghost use Rattle.rules.specs.Setups.{setup_in};
ghost use Rattle.rules.specs.Model;
ghost use Rattle.rules.specs.Calls;
ghost use Rattle.rules.specs.Calls.{on, ring_of};
ghost use Rattle.rules.specs.Replies.{number_in, done_says, stamped_says, received_says, sent_says};
ghost use Rattle.book.specs.Sound.{sound};
ghost use Rattle.book.specs.Codec.{decode};
ghost use Rattle.summary.specs.Summary.{summary_size, summary_due, level, summary_with, summary_of};
ghost use Rattle.office.specs.Office.{folder, office_answer, folder_after};

use rules::{GivenSetup, Received, Refusal, Sent, Stamped};

// Whether every paper is ready: BadSummary, by the length alone, or done.
fn papers_number(summary: &[u8]) -> Result<(), Refusal>
    ensures { number_in result ≡ first (summary_due summary.now) }
{
    if summary.len() != summary::SUMMARY_BYTES {
        return Err(Refusal::BadSummary);
    }
    Ok(())
}

// The papers after an accepted change, beside the book that it left: made anew.
fn file(book: &[u8], summary: &mut [u8])
    requires { (length summary.old ≡ summary_size) × (sound book.now ≡ true) }
    ensures { summary.new ≡ summary_of ring_of (decode book.now) }
{
    summary::renew(book.as_array().unwrap(), summary.first_chunk_mut().unwrap());
}

// The papers after an accepted start: in a fresh book nothing lags.
fn file_fresh(summary: &mut [u8])
    requires { length summary.old ≡ summary_size }
    ensures { summary.new ≡ summary_with (λ j. level) }
{
    summary::clear(summary.first_chunk_mut().unwrap());
}

// Start, with the papers beside the book. Its papers are those of a fresh book, so it is no call of change.
pub fn start(book: &mut [u8], summary: &mut [u8], setup: GivenSetup<'_>) -> Result<(), Refusal>
    ensures result_value { done_says result ≡ office_answer (folder book.old summary.old)
        (Calls.start (setup_in setup.entry)) }
    ensures summary_after { folder book.new summary.new ≡ folder_after (folder book.old summary.old)
        (Calls.start (setup_in setup.entry)) }
{
    if let Err(due) = papers_number(&summary[..]) {
        return Err(refusals::start_check(&book[..], setup).err().unwrap_or(due));
    }
    portal::start(book, setup)?;
    file_fresh(summary);
    Ok(())
}

// A change, with the papers beside the book: a call where every paper is ready, else the book's check of it, whose reasons come first.
fn change<
    T,
    U: Drop,
    G: FnOnce(&[u8]) -> Result<U, Refusal>,
    F: FnOnce(&mut [u8]) -> Result<T, Refusal>,
>(book: &mut [u8], summary: &mut [u8], check: G, call: F) -> Result<T, Refusal>
    requires checked { G.IsAlwaysCallable check }
    requires called { F.IsAlwaysCallable call }
    requires whole { (x : T) (b : List ℕ) → FnOnceReturnsAtMut F.FnOnce call book.old (Ok x) b → sound b ≡ true }
    ensures unready { length summary.old ≢ summary_size → (g : Result U Refusal) × FnOnceReturnsAt G.FnOnce check book.old g
        × (result ≡ Err (unwrap_or (result_err g) BadSummary)) × (book.new ≡ book.old) × (summary.new ≡ summary.old) }
    ensures made { length summary.old ≡ summary_size → FnOnceReturnsAtMut F.FnOnce call book.old result book.new
        × (summary.new ≡ if_done (number_in result) (summary_of ring_of (decode book.new)) summary.old) }
{
    if let Err(due) = papers_number(&summary[..]) {
        return Err(check(&book[..]).err().unwrap_or(due));
    }
    let told = call(book)?;
    file(&book[..], summary);
    Ok(told)
}

// Local, with the papers beside the book.
pub fn local(
    book: &mut [u8],
    summary: &mut [u8],
    desk: usize,
    keep: bool,
) -> Result<Stamped, Refusal>
    ensures result_value { stamped_says result ≡ office_answer (folder book.old summary.old) (on (Model.local desk keep)) }
    ensures summary_after { folder book.new summary.new ≡ folder_after (folder book.old summary.old)
        (on (Model.local desk keep)) }
{
    let check = |b: &[u8]| refusals::local_grant(b, desk, keep);
    change(book, summary, check, |b| portal::local(b, desk, keep))
}

// Send, with the papers beside the book.
pub fn send(
    book: &mut [u8],
    summary: &mut [u8],
    desk: usize,
    to: usize,
    keep: bool,
) -> Result<Sent, Refusal>
    ensures result_value { sent_says result ≡ office_answer (folder book.old summary.old) (on (Model.send desk to keep)) }
    ensures summary_after { folder book.new summary.new ≡ folder_after (folder book.old summary.old)
        (on (Model.send desk to keep)) }
{
    let check = |b: &[u8]| refusals::send_grant(b, desk, to, keep);
    change(book, summary, check, |b| portal::send(b, desk, to, keep))
}

// Receive, with the papers beside the book.
pub fn receive(
    book: &mut [u8],
    summary: &mut [u8],
    desk: usize,
    place: usize,
    keep: bool,
) -> Result<Received, Refusal>
    ensures result_value { received_says result ≡ office_answer (folder book.old summary.old) (on (Model.receive desk place keep)) }
    ensures summary_after { folder book.new summary.new ≡ folder_after (folder book.old summary.old)
        (on (Model.receive desk place keep)) }
{
    let check = |b: &[u8]| refusals::receive_grant(b, desk, place, keep);
    change(
        book,
        summary,
        check,
        |b| portal::receive(b, desk, place, keep),
    )
}

// Reset, with the papers beside the book.
pub fn reset(
    book: &mut [u8],
    summary: &mut [u8],
    desk: usize,
    keep: bool,
) -> Result<Stamped, Refusal>
    ensures result_value { stamped_says result ≡ office_answer (folder book.old summary.old) (on (Model.reset desk keep)) }
    ensures summary_after { folder book.new summary.new ≡ folder_after (folder book.old summary.old)
        (on (Model.reset desk keep)) }
{
    let check = |b: &[u8]| refusals::reset_grant(b, desk, keep);
    change(book, summary, check, |b| portal::reset(b, desk, keep))
}

// Drop, with the papers beside the book: a lag may be lower without the stamp.
pub fn drop(book: &mut [u8], summary: &mut [u8], slot: usize) -> Result<(), Refusal>
    ensures result_value { done_says result ≡ office_answer (folder book.old summary.old) (on (Model.drop slot)) }
    ensures summary_after { folder book.new summary.new ≡ folder_after (folder book.old summary.old)
        (on (Model.drop slot)) }
{
    let check = |b: &[u8]| refusals::used_check(b, parts::SHELF, slot);
    change(book, summary, check, |b| portal::drop(b, slot))
}

// Discard, with the papers beside the book.
pub fn discard(book: &mut [u8], summary: &mut [u8], place: usize) -> Result<(), Refusal>
    ensures result_value { done_says result ≡ office_answer (folder book.old summary.old) (on (Model.discard place)) }
    ensures summary_after { folder book.new summary.new ≡ folder_after (folder book.old summary.old)
        (on (Model.discard place)) }
{
    let check = |b: &[u8]| refusals::used_check(b, parts::MAIL, place);
    change(book, summary, check, |b| portal::discard(b, place))
}
