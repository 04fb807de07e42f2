// What the calls that ask of a book tell where their slots are used: they leave it as it is.

#![tactic(auto)]

ghost use Rattle.std.specs.Prelude.{◌≡◌, true, false};
ghost use Rattle.rules.specs.Model;
ghost use Rattle.rules.specs.Model.{by_in, no_slot};
ghost use Rattle.rules.specs.Calls.{on};
ghost use Rattle.rules.specs.Replies.{told_says, compared_says};
ghost use Rattle.book.specs.Sound.{sound};
ghost use Rattle.book.specs.Answers.{answer_to, part_of, part_from};
ghost use Rattle.book.specs.Numbers.{tables_of, number_of};
ghost use Rattle.refusals.specs.First.{slots_number};
ghost use Rattle.parts.specs.Slices.{place};
ghost use Rattle.asking.specs.Slots.{WayBetween, record_for};

use comparing::Way;
use parts::BookBytes;
use ring::Gap;
use rules::{Refusal, Relation, Stamp};

// The owner of the stamp in a used slot.
pub fn owner_of(book: &BookBytes, slot: usize) -> u8
    requires { no_slot (tables_of book.now) slot ≡ false }
    ensures { result ≡ by_in ((tables_of book.now).shelf slot) }
{
    parts::tag_a(book, parts::SHELF + slot) - 1
}

// The way from the stamp in one used slot to that in another: d is lag of e's entry minus lag of f's entry.
fn way_of(book: &BookBytes, first: usize, second: usize) -> Way
    requires whole { sound book.now ≡ true }
    requires first { no_slot (tables_of book.now) first ≡ false }
    requires second { no_slot (tables_of book.now) second ≡ false }
    ensures { WayBetween book.now first second result }
{
    let owner = usize::from(owner_of(book, first));
    let e = parts::SHELF + first;
    let f = parts::SHELF + second;
    let last = parts::last_phase(book);
    let own = parts::phase_at(book, owner, owner);
    let up = ring::lag(own, parts::phase_at(book, e, owner), last);
    let down = ring::lag(own, parts::phase_at(book, f, owner), last);
    let from = parts::clock_at(book, e, owner);
    let to = parts::clock_at(book, f, owner);
    let gap = Gap { up, down };
    Way { gap, from, to }
}

// Before, of two used slots: OutOfReach, or yes or no.
pub fn told(book: &BookBytes, first: usize, second: usize) -> Result<bool, Refusal>
    requires { slots_number book.now first second ≡ 0 }
    ensures { told_says result ≡ answer_to book.now (on (Model.before first second)) }
{
    let setup = parts::numbers_of(book);
    let owner = owner_of(book, first);
    let other = owner_of(book, second);
    comparing::told(setup, owner, other, way_of(book, first, second))
}

// Compare, of two used slots: OutOfReach, or the relation.
pub fn compared(book: &BookBytes, first: usize, second: usize) -> Result<Relation, Refusal>
    requires { slots_number book.now first second ≡ 0 }
    ensures { compared_says result ≡ answer_to book.now (on (Model.compare first second)) }
{
    let setup = parts::numbers_of(book);
    let owner = owner_of(book, first);
    let other = owner_of(book, second);
    let there = way_of(book, first, second);
    let back = way_of(book, second, first);
    comparing::compared(setup, owner, other, there, back)
}

// The sixteen row bytes of a slot that show accepts, as a part of the book itself: so it takes the very slice that the caller lent.
pub fn row_part(book: &[u8], slot: usize) -> &[u8]
    requires { number_of book.now (Model.show slot) ≡ 0 }
    ensures result_value { result.now ≡ part_of book.now slot }
    ensures ref_ptr_value { result.ref_ptr ≡ place book.entry (part_from book.now slot) }
{
    let a = parts::spot(parts::SHELF + slot, parts::ROW);
    let e = a + parts::ROW_BYTES;
    &book[a..e]
}

// The stamp record of a slot that write accepts.
pub fn record_at(book: &BookBytes, slot: usize, room: usize) -> [u8; 20]
    requires { number_of book.now (Model.write slot room) ≡ 0 }
    ensures { result ≡ record_for book.now slot room }
{
    let row = rows::row_array(book, parts::SHELF + slot);
    let owner = owner_of(book, slot);
    labels::record_of(parts::desks_of(book) as u8, Stamp { owner, row })
}
