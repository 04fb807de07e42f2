// What each call is answered before anything is changed: BadBook first, then its reasons in ascending order. To an event goes with it
// the slot that its stamp is kept in, so that the shelf is looked through once; to a question the book, whole.

#![tactic(auto, unfolding(rules::specs::Model::reasons, rules::specs::Model::ask_reasons))]

ghost use Rattle.std.specs.Prelude.{◌≡◌, ◌≤◌, length, IfOk};
ghost use Rattle.tools.specs.Tests.{pick, any};
ghost use Rattle.rules.specs.Setups.{setup_in};
ghost use Rattle.rules.specs.Model;
ghost use Rattle.rules.specs.Numbers.{number};
ghost use Rattle.rules.specs.Calls.{start};
ghost use Rattle.rules.specs.Replies.{done_says, number_in};
ghost use Rattle.rules.specs.declared.Refusal.TheVariants as Refusals;
ghost use Rattle.book.specs.Layout.{shelf_from};
ghost use Rattle.book.specs.Sound.{sound};
ghost use Rattle.book.specs.Answers.{answer_to};
ghost use Rattle.book.specs.Numbers.{tables_of, number_of};
ghost use Rattle.refusals.specs.First.{desk_number, used_number, slots_number, list_number};
ghost use Rattle.refusals.specs.Grants.{granted_by, shelf_grant, grant_of};

use parts::BookBytes;
use rows::Desk;
use rules::{GivenSetup, Refusal};

// Start: BadBook, by the length alone, BadSetup or done.
#[tactic(auto, unfolding(book::specs::Answers::answer_to, book::specs::Answers::admits, rules::specs::Calls::call))]
pub fn start_check(book: &[u8], setup: GivenSetup<'_>) -> Result<(), Refusal>
    ensures { done_says result ≡ answer_to book.now (start (setup_in setup.entry)) }
{
    if book.len() != parts::BOOK_BYTES {
        return Err(Refusal::BadBook);
    }
    if !setups::permits(setup) {
        return Err(Refusal::BadSetup);
    }
    Ok(())
}

// What every other call asks first: BadBook, or the book, whole.
#[tactic(auto, using(book::proofs::Soundness::sound_size))]
fn sound_book(book: &[u8]) -> Result<&BookBytes, Refusal>
    ensures number { number_in result ≡ pick (sound book.now) 0 (number Refusals.BadBook) }
    ensures whole { IfOk result (λ b. b.now ≡ book.now) }
{
    let Some(whole) = book.as_array() else {
        return Err(Refusal::BadBook);
    };
    if !soundness::sound(whole) {
        return Err(Refusal::BadBook);
    }
    Ok(whole)
}

// What the events ask first: BadBook, NoDesk or the desk.
#[tactic(auto, using(crate::proofs::First::whole_by, reasons::proofs::Held::desk_there))]
fn desk_of(book: &[u8], number: usize) -> Result<Desk<'_>, Refusal>
    ensures number { number_in result ≡ desk_number book.now number }
    ensures there { IfOk result (λ d. (d.book.now ≡ book.now) × (d.number ≡ number)) }
{
    let whole = sound_book(book)?;
    if reasons::no_desk(whole, number) {
        return Err(Refusal::NoDesk);
    }
    Ok(Desk {
        book: whole,
        number,
    })
}

// ShelfFull, or the slot of an event that is kept: what all four ask, if only for a kept one.
fn shelf_grant(book: &BookBytes, keep: bool) -> Result<Option<usize>, Refusal>
    ensures { granted_by result ≡ shelf_grant book.now keep }
{
    if !keep {
        return Ok(None);
    }
    let Some(slot) = reasons::free_from(book, parts::SHELF) else {
        return Err(Refusal::ShelfFull);
    };
    Ok(Some(slot))
}

// Local: BadBook, NoDesk, PhaseFull, ShelfFull or the slot for its stamp, none where it is not kept.
pub fn local_grant(book: &[u8], desk: usize, keep: bool) -> Result<Option<usize>, Refusal>
    ensures { granted_by result ≡ grant_of book.now (Model.local desk keep) keep }
{
    let at = desk_of(book, desk)?;
    if reasons::phase_full(at) {
        return Err(Refusal::PhaseFull);
    }
    shelf_grant(at.book, keep)
}

// Send: BadBook, NoDesk, SameDesk, PhaseFull, MailFull, ShelfFull or the slot.
pub fn send_grant(book: &[u8], desk: usize, to: usize, keep: bool) -> Result<Option<usize>, Refusal>
    ensures { granted_by result ≡ grant_of book.now (Model.send desk to keep) keep }
{
    let at = desk_of(book, desk)?;
    if reasons::no_desk(at.book, to) {
        return Err(Refusal::NoDesk);
    }
    if desk == to {
        return Err(Refusal::SameDesk);
    }
    if reasons::phase_full(at) {
        return Err(Refusal::PhaseFull);
    }
    if reasons::mail_full(at.book) {
        return Err(Refusal::MailFull);
    }
    shelf_grant(at.book, keep)
}

// Receive: BadBook, NoDesk, NoPlace, NotYours, PhaseFull, ShelfFull or the slot.
pub fn receive_grant(
    book: &[u8],
    desk: usize,
    place: usize,
    keep: bool,
) -> Result<Option<usize>, Refusal>
    ensures { granted_by result ≡ grant_of book.now (Model.receive desk place keep) keep }
{
    let at = desk_of(book, desk)?;
    if !reasons::is_used(at.book, parts::MAIL, place) {
        return Err(Refusal::NoPlace);
    }
    if reasons::not_yours(at, place) {
        return Err(Refusal::NotYours);
    }
    if reasons::phase_full(at) {
        return Err(Refusal::PhaseFull);
    }
    shelf_grant(at.book, keep)
}

// Reset: BadBook, NoDesk, ShelfFull, SeatBehind, MailBehind, ShelfBehind or the slot.
pub fn reset_grant(book: &[u8], desk: usize, keep: bool) -> Result<Option<usize>, Refusal>
    ensures { granted_by result ≡ grant_of book.now (Model.reset desk keep) keep }
{
    let at = desk_of(book, desk)?;
    let slot = shelf_grant(at.book, keep)?;
    if reasons::seat_behind(at) {
        return Err(Refusal::SeatBehind);
    }
    if reasons::mail_behind(at) {
        return Err(Refusal::MailBehind);
    }
    if reasons::shelf_behind(at) {
        return Err(Refusal::ShelfBehind);
    }
    Ok(slot)
}

// Drop and discard: BadBook, NoPlace or done; first is the record of place or slot 0.
pub fn used_check(book: &[u8], first: usize, place: usize) -> Result<(), Refusal>
    requires { first ≤ shelf_from }
    ensures { number_in result ≡ used_number book.now first place }
{
    let whole = sound_book(book)?;
    if !reasons::is_used(whole, first, place) {
        return Err(Refusal::NoPlace);
    }
    Ok(())
}

// Before and compare, before their stamps are looked at: BadBook, NoPlace or the book. OutOfReach comes with the comparison.
pub fn slots_check(book: &[u8], first: usize, second: usize) -> Result<&BookBytes, Refusal>
    ensures number { number_in result ≡ slots_number book.now first second }
    ensures whole { IfOk result (λ b. b.now ≡ book.now) }
{
    let whole = sound_book(book)?;
    if !reasons::is_used(whole, parts::SHELF, first)
        | !reasons::is_used(whole, parts::SHELF, second)
    {
        return Err(Refusal::NoPlace);
    }
    Ok(whole)
}

// Whether a slot of the list is above 31 or free.
fn any_gone(book: &BookBytes, slots: &[usize]) -> bool
    ensures { result ≡ any (length slots.now)
        (λ i. Model.no_slot (tables_of book.now) (Model.chosen slots.now i)) }
{
    slots
        .iter()
        .any(|slot| !reasons::is_used(book, parts::SHELF, *slot))
}

// Picture, before its stamps are looked at: BadBook, NoPlace or the book. OutOfReach and WrongOwner come with the picture.
pub fn list_check<'a>(book: &'a [u8], slots: &[usize]) -> Result<&'a BookBytes, Refusal>
    ensures number { number_in result ≡ list_number book.now slots.now }
    ensures whole { IfOk result (λ b. b.now ≡ book.now) }
{
    let whole = sound_book(book)?;
    if slots.len() != parts::desks_of(whole) {
        return Err(Refusal::NoPlace);
    }
    if any_gone(whole, slots) {
        return Err(Refusal::NoPlace);
    }
    Ok(whole)
}

// Show: BadBook, NoPlace or done.
pub fn show_check(book: &[u8], slot: usize) -> Result<(), Refusal>
    ensures { number_in result ≡ number_of book.now (Model.show slot) }
{
    used_check(book, parts::SHELF, slot)
}

// Write, into so many bytes of room: BadBook, NoPlace, NoRoom or the book.
pub fn write_check(book: &[u8], slot: usize, room: usize) -> Result<&BookBytes, Refusal>
    ensures number { number_in result ≡ number_of book.now (Model.write slot room) }
    ensures whole { IfOk result (λ b. b.now ≡ book.now) }
{
    let whole = slots_check(book, slot, slot)?;
    if room < parts::RECORD_BYTES {
        return Err(Refusal::NoRoom);
    }
    Ok(whole)
}
