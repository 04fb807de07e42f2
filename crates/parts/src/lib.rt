// The numbers of a book in its bytes, where each stands, its marks, one record written, and a lent buffer filled.

#![tactic(auto)]

ghost use Rattle.std.specs.Prelude.{◌≡◌, [], ◌∷◌, ◌+◌, ◌<◌, ◌≤◌, length};
ghost use Rattle.tools.specs.Lists.{byte};
ghost use Rattle.rules.specs.Setups.{setup_with};
ghost use Rattle.book.specs.Layout.{record_size, records, seats, phase_spot, clock_spot};
ghost use Rattle.book.specs.Layout.{fields, limits_of, setup_of, phases_byte, mark0, mark1};
ghost use Rattle.book.specs.Layout;
ghost use Rattle.book.specs.Stamps.{filled};

use ring::Pair;
use rules::SetupNumbers;

pub const HEAD_BYTES: usize = 16;

pub const RECORD_BYTES: usize = 20;

pub const ROW_BYTES: usize = 16;

// A row has a pair for each seat.
pub const SEATS: usize = 8;

// Mail places and shelf slots, each.
pub const PLACES: usize = 32;

// The record of mail place 0, behind those of the seats.
pub const MAIL: usize = SEATS;

// The record of shelf slot 0.
pub const SHELF: usize = MAIL + PLACES;

pub const RECORDS: usize = SHELF + PLACES;

pub const BOOK_BYTES: usize = HEAD_BYTES + RECORDS * RECORD_BYTES;

// The bytes of a book.
pub type BookBytes = [u8; BOOK_BYTES];

// A record is a mark of two bytes, two tags and a row.
pub const TAG_A: usize = 2;

// A seat's limit, a mail place's addressee; filler in a slot.
pub const TAG_B: usize = 3;

pub const ROW: usize = 4;

// The mark of a book, its first two bytes.
pub const BOOK_MARK0: u8 = 0x42;

pub const BOOK_MARK1: u8 = 0x4B;

// Behind it the setup numbers, a byte each.
pub const DESKS_AT: usize = 2;

const PHASES_AT: usize = 3;

// Filler, between P and M.
pub const BLANK_AT: usize = 4;

const SEAT_LAG_AT: usize = 5;

const SHELF_LAG_AT: usize = 6;

const BACK_AT: usize = 7;

const AHEAD_AT: usize = 8;

// The filler behind them, to the header's end.
pub const SPARE_AT: usize = 9;

pub const SPARE_BYTES: usize = HEAD_BYTES - SPARE_AT;

// The first tag of a seat that has started.
pub const STARTED: u8 = 1;

// The first tag of a place or slot that is free, and of a seat that has not started.
pub const FREE: u8 = 0;

// A second tag that says nothing.
pub const FILLER: u8 = 0;

// Where byte c of record k stands.
pub fn spot(k: usize, c: usize) -> usize
    requires { (k < records) × (c < record_size) }
    ensures { result ≡ Layout.spot k c }
{
    HEAD_BYTES + RECORD_BYTES * k + c
}

// Which byte of a row is the phase of desk j.
pub fn phase_spot(j: usize) -> usize
    requires { j < seats }
    ensures { result ≡ phase_spot j }
{
    2 * j
}

// Which byte of a row is the clock of desk j.
pub fn clock_spot(j: usize) -> usize
    requires { j < seats }
    ensures { result ≡ clock_spot j }
{
    1 + 2 * j
}

// The setup numbers in the header; the limits stand in the seats.
pub fn numbers_of(book: &BookBytes) -> SetupNumbers
    ensures { setup_with result (limits_of book.now) ≡ setup_of book.now }
{
    SetupNumbers {
        desks: usize::from(book[DESKS_AT]),
        phases: usize::from(last_phase(book)) + 1,
        seat_lag: usize::from(book[SEAT_LAG_AT]),
        shelf_lag: usize::from(book[SHELF_LAG_AT]),
        back: usize::from(book[BACK_AT]),
        ahead: usize::from(book[AHEAD_AT]),
    }
}

pub fn desks_of(book: &BookBytes) -> usize
    ensures { result ≡ (setup_of book.now).desks }
{
    usize::from(book[DESKS_AT])
}

// The last phase of the ring. It fits a byte where their number may not: the byte 0 tells 256 of them.
#[tactic(auto, unfolding(book::specs::Layout::phases_byte))]
pub fn last_phase(book: &BookBytes) -> u8
    ensures { result + 1 ≡ (setup_of book.now).phases }
{
    book[PHASES_AT].wrapping_sub(1)
}

// The header's byte for so many phases: 0 for 256 of them.
#[tactic(auto, unfolding(book::specs::Layout::phases_byte))]
pub fn phases_byte(phases: usize) -> u8
    requires { (1 ≤ phases) × (phases ≤ 256) }
    ensures { result ≡ phases_byte phases }
{
    u8::try_from(phases).unwrap_or(0)
}

pub fn seat_lag_of(book: &BookBytes) -> u8
    ensures { result ≡ (setup_of book.now).seat_lag }
{
    book[SEAT_LAG_AT]
}

pub fn shelf_lag_of(book: &BookBytes) -> u8
    ensures { result ≡ (setup_of book.now).shelf_lag }
{
    book[SHELF_LAG_AT]
}

pub fn byte_at(book: &BookBytes, k: usize, c: usize) -> u8
    requires { (k < records) × (c < record_size) }
    ensures { result ≡ byte book.now (Layout.spot k c) }
{
    book[spot(k, c)]
}

pub fn phase_at(book: &BookBytes, k: usize, j: usize) -> u8
    requires { (k < records) × (j < seats) }
    ensures { result ≡ (((fields book.now).at k).row j).phase }
{
    book[spot(k, ROW) + phase_spot(j)]
}

pub fn clock_at(book: &BookBytes, k: usize, j: usize) -> u8
    requires { (k < records) × (j < seats) }
    ensures { result ≡ (((fields book.now).at k).row j).clock }
{
    book[spot(k, ROW) + clock_spot(j)]
}

pub fn pair_at(book: &BookBytes, k: usize, j: usize) -> Pair
    requires { (k < records) × (j < seats) }
    ensures { result ≡ ((fields book.now).at k).row j }
{
    Pair {
        phase: phase_at(book, k, j),
        clock: clock_at(book, k, j),
    }
}

pub fn tag_a(book: &BookBytes, k: usize) -> u8
    requires { k < records }
    ensures { result ≡ ((fields book.now).at k).tag_a }
{
    byte_at(book, k, TAG_A)
}

pub fn tag_b(book: &BookBytes, k: usize) -> u8
    requires { k < records }
    ensures { result ≡ ((fields book.now).at k).tag_b }
{
    byte_at(book, k, TAG_B)
}

// The mark of record k: a seat's, a mail place's or a shelf slot's.
#[tactic(auto, unfolding(book::specs::Layout::mark0, book::specs::Layout::mark1))]
pub fn mark(k: usize) -> [u8; 2]
    ensures { result ≡ mark0 k ∷ mark1 k ∷ [] }
{
    if k < SEATS {
        *b"SE"
    } else if k < SHELF {
        *b"MA"
    } else {
        *b"SH"
    }
}

#[tactic(auto, unfolding(book::specs::Layout::post, tools::specs::Lists::mid))]
pub fn post(book: &mut BookBytes, k: usize, x: u8, y: u8, row: [u8; 16])
    requires { k < records }
    ensures { book.new ≡ Layout.post book.old k x y row }
{
    let a = spot(k, ROW);
    let e = a + ROW_BYTES;
    let part = &mut book[a..e];
    part.copy_from_slice(&row);
    book[spot(k, TAG_A)] = x;
    book[spot(k, TAG_B)] = y;
}

// Bytes are written in front of a lent buffer, the rest of it as it was.
#[tactic(auto, unfolding(book::specs::Stamps::filled))]
pub fn lend(target: &mut [u8], bytes: &[u8])
    requires { length bytes.now ≤ length target.old }
    ensures { target.new ≡ filled target.old bytes.now }
{
    target[..bytes.len()].copy_from_slice(bytes);
}
