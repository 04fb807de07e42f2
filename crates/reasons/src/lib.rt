// The reasons of the answer table, each a test of a sound book named after it: which call asks which of them, and in what order, is
// for the crate refusals to say.

#![tactic(auto)]

ghost use Rattle.std.specs.Prelude.{◌≡◌, true, not, ◌*◌, ◌<◌, ◌≤◌, ltb, eqb};
ghost use Rattle.rules.specs.Model.{no_desk, at_limit, to_in};
ghost use Rattle.book.specs.Layout.{records, shelf_from, mail_from, seats, places, setup_of};
ghost use Rattle.book.specs.Numbers.{tables_of};
ghost use Rattle.reasons.specs.Held.{used_at, free_from, free_place, lag_in, lags_at, behind_from, seat_lags_at, seats_behind};

use parts::BookBytes;
use rows::Desk;

// NoDesk: the number is D or more.
pub fn no_desk(book: &BookBytes, desk: usize) -> bool
    ensures { result ≡ no_desk (setup_of book.now) desk }
{
    desk >= parts::desks_of(book)
}

// Whether a place or slot is below 32 and used; first is the record of place or slot 0.
pub fn is_used(book: &BookBytes, first: usize, place: usize) -> bool
    requires { first ≤ shelf_from }
    ensures { result ≡ used_at book.now first place }
{
    place < parts::PLACES && parts::tag_a(book, first + place) != parts::FREE
}

// NotYours: a waiting mail is addressed to another desk.
#[tactic(auto, using(crate::proofs::Held::addressed))]
pub fn not_yours(desk: Desk<'_>, place: usize) -> bool
    requires { (place < places) × (used_at desk.book.now mail_from place ≡ true) }
    ensures { result ≡ not (eqb (to_in ((tables_of desk.entry.book.now).mail place)) desk.entry.number) }
{
    usize::from(parts::tag_b(desk.book, parts::MAIL + place)) != desk.number + 1
}

// PhaseFull: the desk's own clock is at its last value, by the limit in its seat.
#[tactic(auto, using(book::proofs::Told::own_at, book::proofs::Codec::limit_seen))]
pub fn phase_full(desk: Desk<'_>) -> bool
    ensures { result ≡ at_limit (setup_of desk.entry.book.now) (tables_of desk.entry.book.now) desk.entry.number }
{
    let clock = parts::clock_at(desk.book, desk.number, desk.number);
    usize::from(clock) + 1 >= usize::from(parts::tag_b(desk.book, desk.number))
}

// The lowest free one of the 32 places or slots; first is the record of place or slot 0.
pub fn free_from(book: &BookBytes, first: usize) -> Option<usize>
    requires { first ≤ shelf_from }
    ensures { result ≡ free_place book.now first }
{
    (0..parts::PLACES).find(|p| !is_used(book, first, *p))
}

// MailFull: no place is free.
pub fn mail_full(book: &BookBytes) -> bool
    ensures { result ≡ not (ltb (free_from book.now mail_from) places) }
{
    free_from(book, parts::MAIL).is_none()
}

#[tactic(auto, using(ring::proofs::Ring::lag_by_last, book::proofs::Below::phase_below))]
fn lag_at(desk: Desk<'_>, row: usize) -> usize
    requires { row < records }
    ensures { result ≡ lag_in desk.entry.book.now desk.entry.number row }
{
    let own = parts::phase_at(desk.book, desk.number, desk.number);
    let told = parts::phase_at(desk.book, row, desk.number);
    usize::from(ring::lag(own, told, parts::last_phase(desk.book)))
}

fn seat_lags(desk: Desk<'_>, seat: usize) -> bool
    requires { seat < seats }
    ensures { result ≡ seat_lags_at desk.entry.book.now desk.entry.number seat }
{
    (seat != desk.number) & (lag_at(desk, seat) == usize::from(parts::seat_lag_of(desk.book)))
}

// SeatBehind: the desk's entry lags M in the seat of another desk.
pub fn seat_behind(desk: Desk<'_>) -> bool
    ensures { result ≡ seats_behind desk.entry.book.now desk.entry.number }
{
    (0..parts::desks_of(desk.book)).any(|seat| seat_lags(desk, seat))
}

// A free one lags nowhere, whatever its bytes.
fn lags_at(desk: Desk<'_>, bound: usize, first: usize, place: usize) -> bool
    requires { (first ≤ shelf_from) × (place < places) }
    ensures { result ≡ lags_at desk.entry.book.now desk.entry.number bound first place }
{
    is_used(desk.book, first, place) & (lag_at(desk, first + place) == bound)
}

fn behind_from(desk: Desk<'_>, bound: usize, first: usize) -> bool
    requires { first ≤ shelf_from }
    ensures { result ≡ behind_from desk.entry.book.now desk.entry.number bound first }
{
    (0..parts::PLACES).any(|p| lags_at(desk, bound, first, p))
}

// MailBehind: mail may lag 2M, a kept stamp A; at that bound one more reset would bring it back as new.
pub fn mail_behind(desk: Desk<'_>) -> bool
    ensures { result ≡ behind_from desk.entry.book.now desk.entry.number (2 * (setup_of desk.entry.book.now).seat_lag) mail_from }
{
    behind_from(
        desk,
        2 * usize::from(parts::seat_lag_of(desk.book)),
        parts::MAIL,
    )
}

// ShelfBehind.
pub fn shelf_behind(desk: Desk<'_>) -> bool
    ensures { result ≡ behind_from desk.entry.book.now desk.entry.number (setup_of desk.entry.book.now).shelf_lag shelf_from }
{
    behind_from(
        desk,
        usize::from(parts::shelf_lag_of(desk.book)),
        parts::SHELF,
    )
}
