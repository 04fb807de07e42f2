// The calls on a book: each answers what the rules say, on any bytes, and leaves every byte that they say.

#![tactic(auto)]

ghost use Rattle.std.specs.Prelude.{◌≡◌, ◌<◌, ◌≤◌, length, IfSome};
ghost use Rattle.rules.specs.Setups.{setup_in};
ghost use Rattle.rules.specs.Model;
ghost use Rattle.rules.specs.Calls;
ghost use Rattle.rules.specs.Calls.{on};
ghost use Rattle.rules.specs.Replies.{number_in, done_says, stamped_says, received_says, sent_says, told_says, compared_says};
ghost use Rattle.rules.specs.Replies.{pictured_says};
ghost use Rattle.book.specs.Layout;
ghost use Rattle.book.specs.Layout.{book_size, records, shelf_from, seats, places, setup_of};
ghost use Rattle.book.specs.Answers.{answer_to, book_after, part_of, part_from, target_after};
ghost use Rattle.refusals.specs.First.{used_number};
ghost use Rattle.parts.specs.Slices.{place};
ghost use Rattle.portal.specs.Freed.{cleared, free_after};
ghost use Rattle.portal.specs.Kept.{row_taken, shelved};

use parts::{BOOK_BYTES, BookBytes};
use rows::Desk;
use rules::{GivenSetup, Odds, Received, Refusal, Relation, Sent, Stamp, Stamped};

// The byte of D in a book of any length, 0 in one too short to have it: who prints a stamp asks it before the call.
pub fn desks_in(book: &[u8]) -> u8
    ensures { result ≡ (setup_of book.now).desks }
{
    book.get(parts::DESKS_AT).copied().unwrap_or(0)
}

// A free place or slot has its mark and 18 zeros.
fn clear(book: &mut BookBytes, k: usize)
    requires { k < records }
    ensures { book.new ≡ cleared book.old k }
{
    parts::post(book, k, parts::FREE, parts::FILLER, [0u8; 16]);
}

// The row of a desk is kept where there is a slot for it.
fn keep_row(book: &mut BookBytes, desk: usize, row: [u8; 16], slot: Option<usize>) -> Option<u8>
    requires desk_lt_seats { desk < seats }
    requires slot_lt_places { IfSome slot (λ k. k < places) }
    ensures value { result ≡ slot }
    ensures book_after { book.new ≡ shelved book.old desk row slot }
{
    let k = slot?;
    parts::post(book, parts::SHELF + k, (desk + 1) as u8, parts::FILLER, row);
    Some(k as u8)
}

// All four events mark the seat started, leave its limit, keep the row where they have a slot for it, and answer a stamp.
fn take_row(book: &mut BookBytes, desk: usize, row: [u8; 16], slot: Option<usize>) -> Stamped
    requires desk_lt_seats { desk < seats }
    requires slot_lt_places { IfSome slot (λ k. k < places) }
    ensures value { result ≡ record { stamp = record { owner = desk; row = row }; slot = slot } }
    ensures book_after { book.new ≡ shelved (row_taken book.old desk row) desk row slot }
{
    let limit = parts::tag_b(book, desk);
    parts::post(book, desk, parts::STARTED, limit, row);
    let slot = keep_row(book, desk, row, slot);
    let stamp = Stamp {
        owner: desk as u8,
        row,
    };
    Stamped { stamp, slot }
}

// Start writes a fresh book under a setup, its numbers and a list of limits, whatever the bytes were: rows zero, no seat started, all
// places free.
pub fn start(book: &mut [u8], setup: GivenSetup<'_>) -> Result<(), Refusal>
    ensures result_value { done_says result ≡ answer_to book.old (Calls.start (setup_in setup.entry)) }
    ensures book_after { book.new ≡ book_after book.old (Calls.start (setup_in setup.entry)) }
{
    refusals::start_check(book, setup)?;
    let book = book.as_mut_array::<BOOK_BYTES>().unwrap();
    fresh::write_fresh(book, setup);
    Ok(())
}

// Local at a desk: its own clock grows by 1. Its stamp is kept or not, as that of each event.
pub fn local(book: &mut [u8], desk: usize, keep: bool) -> Result<Stamped, Refusal>
    ensures result_value { stamped_says result ≡ answer_to book.old (on (Model.local desk keep)) }
    ensures book_after { book.new ≡ book_after book.old (on (Model.local desk keep)) }
{
    let slot = refusals::local_grant(book, desk, keep)?;
    let book = book.as_mut_array::<BOOK_BYTES>().unwrap();
    let row = Desk { book, number: desk }.grown_row();
    Ok(take_row(book, desk, row, slot))
}

// Send from a desk to another: as local, then the row goes into the lowest free mail place.
pub fn send(book: &mut [u8], desk: usize, to: usize, keep: bool) -> Result<Sent, Refusal>
    ensures result_value { sent_says result ≡ answer_to book.old (on (Model.send desk to keep)) }
    ensures book_after { book.new ≡ book_after book.old (on (Model.send desk to keep)) }
{
    let slot = refusals::send_grant(book, desk, to, keep)?;
    let book = book.as_mut_array::<BOOK_BYTES>().unwrap();
    let place = reasons::free_from(book, parts::MAIL).unwrap();
    let row = Desk { book, number: desk }.grown_row();
    parts::post(
        book,
        parts::MAIL + place,
        (desk + 1) as u8,
        (to + 1) as u8,
        row,
    );
    let Stamped { stamp, slot } = take_row(book, desk, row, slot);
    Ok(Sent {
        place: place as u8,
        stamp,
        slot,
    })
}

// Receive at a desk from a place: its own clock grows by 1; for every other desk, the later of the two pairs; the place is free. It
// answers how many of these pairs changed.
pub fn receive(book: &mut [u8], desk: usize, place: usize, keep: bool) -> Result<Received, Refusal>
    ensures result_value { received_says result ≡ answer_to book.old (on (Model.receive desk place keep)) }
    ensures book_after { book.new ≡ book_after book.old (on (Model.receive desk place keep)) }
{
    let slot = refusals::receive_grant(book, desk, place, keep)?;
    let book = book.as_mut_array::<BOOK_BYTES>().unwrap();
    let merged = Desk { book, number: desk }.merged_row(place);
    let from = parts::MAIL + place;
    clear(book, from);
    let Stamped { stamp, slot } = take_row(book, desk, merged.row, slot);
    Ok(Received {
        stamp,
        learnt: merged.learnt,
        slot,
    })
}

// Reset at a desk: its own phase grows by 1 modulo P and its own clock becomes 0. No other seat changes.
pub fn reset(book: &mut [u8], desk: usize, keep: bool) -> Result<Stamped, Refusal>
    ensures result_value { stamped_says result ≡ answer_to book.old (on (Model.reset desk keep)) }
    ensures book_after { book.new ≡ book_after book.old (on (Model.reset desk keep)) }
{
    let slot = refusals::reset_grant(book, desk, keep)?;
    let book = book.as_mut_array::<BOOK_BYTES>().unwrap();
    let row = Desk { book, number: desk }.turned_row();
    Ok(take_row(book, desk, row, slot))
}

// Drop and discard: a used slot or place is freed, any other refused; first is the record of place or slot 0.
fn free(book: &mut [u8], first: usize, place: usize) -> Result<(), Refusal>
    requires { first ≤ shelf_from }
    ensures value { number_in result ≡ used_number book.old first place }
    ensures book_after { book.new ≡ free_after book.old first place }
{
    refusals::used_check(book, first, place)?;
    let book = book.as_mut_array::<BOOK_BYTES>().unwrap();
    clear(book, first + place);
    Ok(())
}

// Drop frees a slot.
pub fn drop(book: &mut [u8], slot: usize) -> Result<(), Refusal>
    ensures result_value { done_says result ≡ answer_to book.old (on (Model.drop slot)) }
    ensures book_after { book.new ≡ book_after book.old (on (Model.drop slot)) }
{
    free(book, parts::SHELF, slot)
}

// Discard frees a mail place.
pub fn discard(book: &mut [u8], place: usize) -> Result<(), Refusal>
    ensures result_value { done_says result ≡ answer_to book.old (on (Model.discard place)) }
    ensures book_after { book.new ≡ book_after book.old (on (Model.discard place)) }
{
    free(book, parts::MAIL, place)
}

// Before, of the stamps in two slots.
pub fn before(book: &[u8], first: usize, second: usize) -> Result<bool, Refusal>
    ensures { told_says result ≡ answer_to book.now (on (Model.before first second)) }
{
    let book = refusals::slots_check(book, first, second)?;
    asking::told(book, first, second)
}

// Compare, of the stamps in two slots.
pub fn compare(book: &[u8], first: usize, second: usize) -> Result<Relation, Refusal>
    ensures { compared_says result ≡ answer_to book.now (on (Model.compare first second)) }
{
    let book = refusals::slots_check(book, first, second)?;
    asking::compared(book, first, second)
}

// Picture, of the stamps in a list of slots, the first for desk 0 and so on.
pub fn picture(book: &[u8], slots: &[usize]) -> Result<Option<Odds>, Refusal>
    ensures { pictured_says result ≡ answer_to book.now (on (Model.picture slots.now)) }
{
    let book = refusals::list_check(book, slots)?;
    pictures::pictured(book, slots)
}

// Show hands back the sixteen row bytes of a slot as a part of the book itself; a refused show hands back an empty part.
pub fn show(book: &[u8], slot: usize) -> &[u8]
    ensures result_value { result.now ≡ part_of book.now slot }
    ensures ref_ptr_value { result.ref_ptr ≡ place book.entry (part_from book.now slot) }
{
    let Ok(()) = refusals::show_check(book, slot) else {
        return &book[0..0];
    };
    asking::row_part(book, slot)
}

// Write fills the first 20 bytes of the target with the stamp record of a slot, and no more.
pub fn write(book: &[u8], slot: usize, target: &mut [u8]) -> Result<(), Refusal>
    ensures value { number_in result ≡ (answer_to book.now (on (Model.write slot (length target.old)))).number }
    ensures target_after { target.new ≡ target_after book.now slot target.old }
{
    let room = target.len();
    let book = refusals::write_check(book, slot, room)?;
    let record = asking::record_at(book, slot, room);
    parts::lend(target, &record);
    Ok(())
}
