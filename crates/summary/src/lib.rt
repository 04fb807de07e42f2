// The summary of a sound book, written beside it, and whether a desk may reset, asked of a summary without the book.

#![tactic(auto)]

ghost use Rattle.std.specs.Prelude.{◌≡◌, true, [], ◌∷◌, ◌+◌, ◌*◌, ◌<◌, ◌≤◌, leb, length, take, drop};
ghost use Rattle.tools.specs.Tests;
ghost use Rattle.tools.specs.Tests.{all_of, all_below};
ghost use Rattle.tools.specs.Lists.{byte};
ghost use Rattle.rules.specs.Setups.{setup_with, setup_in};
ghost use Rattle.rules.specs.Model.{foretells};
ghost use Rattle.rules.specs.Replies.{reset_value, foretold_says};
ghost use Rattle.rules.specs.Calls.{ring_of};
ghost use Rattle.book.specs.Layout.{records, row_size, phase_spot, seats, places, shelf_from};
ghost use Rattle.book.specs.Sound.{sound};
ghost use Rattle.book.specs.Codec.{decode};
ghost use Rattle.reasons.specs.Held.{lag_in};
ghost use Rattle.summary.specs.Summary.{summary_size, lags_at, lags_in, level, summary_with, summary_of};
ghost use Rattle.summary.specs.May.{summary_ok, reset_number, may_of};
ghost use Rattle.summary.specs.Lanes.{Lanes, own_phase_at, seats_most, place_lag, held_most, Both, lags_by};

use parts::BookBytes;
use rules::{GivenSetup, Refusal, SetupNumbers};

pub const SUMMARY_BYTES: usize = 26;

// The bytes of a summary.
pub type SummaryBytes = [u8; SUMMARY_BYTES];

// The mark of a summary, its first two bytes.
const MARK0: u8 = 0x53;

const MARK1: u8 = 0x55;

// The byte where the lags of a desk begin: in seats, in mail, in slots.
fn lags_at(desk: usize) -> usize
    requires { desk < seats }
    ensures { result ≡ lags_at desk }
{
    2 + 3 * desk
}

// Each desk's own pair, as a row has them.
fn own_row(book: &BookBytes) -> [u8; 16]
    ensures { Lanes seats (own_phase_at book.now) result }
{
    let mut own = [0u8; 16];
    for j in 0..parts::SEATS {
        own[parts::phase_spot(j)] = parts::phase_at(book, j, j);
        own[parts::clock_spot(j)] = parts::clock_at(book, j, j);
    }
    own
}

// A sound book, and each desk's own pair, by which the lags in its rows are taken.
#[derive(Clone, Copy)]
struct Own<'a> {
    book: &'a BookBytes,
    row: [u8; 16],
    ghost of_sound: { sound book.now ≡ true },
    ghost lanes: { Lanes seats (own_phase_at book.now) row },
}

impl Own<'_> {
    // The larger of the lags so far and those in a row. Its clocks go along and tell nothing: so sixteen bytes are taken at once.
    fn row_lags(&self, k: usize, lags: &mut [u8])
        requires { (k < records) × (length lags.old ≡ row_size) }
        ensures { Lanes seats (λ j. Tests.larger (byte lags.old (phase_spot j)) (lag_in self.now.book.now j k))
            lags.new }
    {
        let last = parts::last_phase(self.book);
        for c in 0..parts::ROW_BYTES {
            let lag = ring::lag(
                self.row[c],
                parts::byte_at(self.book, k, parts::ROW + c),
                last,
            );
            lags[c] = lags[c].max(lag);
        }
    }

    // In the seats of all desks. In its own seat a desk's phase does not lag, so that none has to be left out.
    fn seats_lags(&self, lags: &mut [u8])
        requires { Lanes seats (λ j. 0) lags.old }
        ensures { Lanes seats (seats_most self.now.book.now) lags.new }
    {
        let d = parts::desks_of(self.book);
        for k in 0..d {
            self.row_lags(k, lags);
        }
    }

    // In a place or slot, counted from the record first on; a free one lags nowhere.
    fn place_lags(&self, first: usize, place: usize, lags: &mut [u8])
        requires { (first ≤ shelf_from) × (place < places) × (length lags.old ≡ row_size) }
        ensures { Lanes seats (λ j. Tests.larger (byte lags.old (phase_spot j)) (place_lag self.now.book.now first j place))
            lags.new }
    {
        if parts::tag_a(self.book, first + place) == parts::FREE {
            return;
        }
        self.row_lags(first + place, lags);
    }

    // In 32 places or slots, from the record first on.
    fn held_lags(&self, first: usize, lags: &mut [u8])
        requires { (first ≤ shelf_from) × Lanes seats (λ j. 0) lags.old }
        ensures { Lanes seats (held_most self.now.book.now first) lags.new }
    {
        for p in 0..parts::PLACES {
            self.place_lags(first, p, lags);
        }
    }

    // In the mail, then in the slots: by one loop, so that the lags stay in memory, sixteen bytes side by side.
    fn both_lags(&self) -> [u8; 32]
        ensures { Both self.now.book.now result }
    {
        let mut lags = [0u8; 32];
        for q in 0..2 {
            let a = parts::ROW_BYTES * q;
            let e = a + parts::ROW_BYTES;
            self.held_lags(parts::MAIL + parts::PLACES * q, &mut lags[a..e]);
        }
        lags
    }
}

// A summary is written: its mark, and for each desk its lags in seats, in mail and in slots.
fn write(summary: &mut SummaryBytes, seats: &[u8; 16], mail: &[u8], shelf: &[u8])
    requires { (length mail.now ≡ row_size) × (length shelf.now ≡ row_size) }
    ensures { summary.new ≡ summary_with (lags_by seats.now mail.now shelf.now) }
{
    summary[0] = MARK0;
    summary[1] = MARK1;
    for j in 0..parts::SEATS {
        let at = lags_at(j);
        let p = parts::phase_spot(j);
        summary[at] = seats[p];
        summary[at + 1] = mail[p];
        summary[at + 2] = shelf[p];
    }
}

// The summary of a book, whatever its bytes were.
pub fn renew(book: &BookBytes, summary: &mut SummaryBytes)
    requires { sound book.now ≡ true }
    ensures { summary.new ≡ summary_of ring_of (decode book.now) }
{
    let own = Own {
        book,
        row: own_row(book),
    };
    let mut seats = [0u8; 16];
    own.seats_lags(&mut seats);
    let held = own.both_lags();
    write(summary, &seats, &held[0..16], &held[16..32]);
}

// The summary of a fresh book, in which nothing lags.
pub fn clear(summary: &mut SummaryBytes)
    ensures { summary.new ≡ summary_with (λ j. level) }
{
    let none = [0u8; 16];
    write(summary, &none, &none, &none);
}

// The summary whose every lag is at its bound.
fn bounds(seat: u8, mail: u8, shelf: u8) -> SummaryBytes
    ensures { result ≡ summary_with (λ j. record { seats = seat; mail = mail; shelf = shelf }) }
{
    let mut most = [0u8; SUMMARY_BYTES];
    write(&mut most, &[seat; 16], &[mail; 16], &[shelf; 16]);
    most
}

// Whether no lag of the eight desks passes its bound: beside a summary of the bounds, sixteen bytes are compared at once.
fn lags_ok(summary: &SummaryBytes, seat: u8, mail: u8, shelf: u8) -> bool
    ensures { result ≡ all_below seats (λ j. all_of
        (leb (byte summary.now (lags_at j)) seat ∷ leb (byte summary.now (lags_at j + 1)) mail
        ∷ leb (byte summary.now (lags_at j + 2)) shelf ∷ [])) }
{
    let most = bounds(seat, mail, shelf);
    let mut ok = true;
    for i in 0..3 * parts::SEATS {
        ok = ok & (summary[2 + i] <= most[2 + i]);
    }
    ok
}

// Whether the bytes are a summary with its mark, and no lag passes its bound. The six numbers are in range.
fn summary_ok(s: SetupNumbers, summary: &SummaryBytes) -> bool
    requires { (s.seat_lag ≤ 127) × (s.shelf_lag ≤ 255) }
    ensures { result ≡ summary_ok (setup_with s []) summary.now }
{
    let lags = lags_ok(
        summary,
        s.seat_lag as u8,
        (2 * s.seat_lag) as u8,
        s.shelf_lag as u8,
    );
    (summary[0] == MARK0) & ((summary[1] == MARK1) & lags)
}

// What would refuse a reset of a desk by its three lags, if anything.
fn reset_refusal(s: SetupNumbers, summary: &SummaryBytes, desk: usize) -> Option<Refusal>
    requires { (s.seat_lag ≤ 127) × (s.shelf_lag ≤ 255) × (desk < seats) }
    ensures { reset_value result ≡ foretells (reset_number (setup_with s []) (lags_in summary.now desk)) }
{
    let at = lags_at(desk);
    if summary[at] == s.seat_lag as u8 {
        return Some(Refusal::SeatBehind);
    }
    if summary[at + 1] == (2 * s.seat_lag) as u8 {
        return Some(Refusal::MailBehind);
    }
    if summary[at + 2] == s.shelf_lag as u8 {
        return Some(Refusal::ShelfBehind);
    }
    None
}

// May: what would refuse a reset at a desk, if anything, by a setup and a summary alone.
pub fn may(setup: GivenSetup<'_>, summary: &[u8], desk: usize) -> Result<Option<Refusal>, Refusal>
    ensures { foretold_says result ≡ may_of (setup_in setup.entry) summary.now desk }
{
    if !setups::permits(setup) {
        return Err(Refusal::BadSetup);
    }
    let s = setup.numbers;
    if s.desks <= desk {
        return Err(Refusal::NoDesk);
    }
    let Some(bytes) = summary.as_array::<SUMMARY_BYTES>() else {
        return Err(Refusal::BadSummary);
    };
    if !summary_ok(s, bytes) {
        return Err(Refusal::BadSummary);
    }
    Ok(reset_refusal(s, bytes, desk))
}
