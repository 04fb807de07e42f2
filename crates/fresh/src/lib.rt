// A fresh book: the bytes that start writes, over whatever bytes were there.

#![tactic(auto)]

ghost use Rattle.std.specs.Prelude.{◌≡◌, true, List, [], ℕ, ◌≤◌};
ghost use Rattle.tools.specs.Lists.{tab, Filled};
ghost use Rattle.rules.specs.Setups.{setup_with, setup_in, in_range, permits};
ghost use Rattle.rules.specs.Calls.{fresh_book};
ghost use Rattle.book.specs.Layout.{book_size, records, head_size, head_byte};
ghost use Rattle.book.specs.Codec.{encode};
ghost use Rattle.fresh.specs.Written.{Written, Marks, Limited, Small};

use parts::BookBytes;
use rules::{GivenSetup, SetupNumbers};

// The header has the numbers, whatever the limits.
#[tactic(auto, unfolding(tools::specs::Lists::tab, book::specs::Layout::head_byte))]
fn head_of(s: SetupNumbers) -> [u8; 16]
    requires { in_range (setup_with s []) ≡ true }
    ensures { result ≡ tab 0 head_size (head_byte (setup_with s [])) }
{
    [
        parts::BOOK_MARK0,
        parts::BOOK_MARK1,
        s.desks as u8,
        parts::phases_byte(s.phases),
        0,
        s.seat_lag as u8,
        s.shelf_lag as u8,
        s.back as u8,
        s.ahead as u8,
        0,
        0,
        0,
        0,
        0,
        0,
        0,
    ]
}

// One sweep that does nothing else.
fn write_zeros(book: &mut BookBytes)
    ensures { Filled book_size book_size (λ i. 0) book.new }
{
    book.fill(0);
}

fn write_head(book: &mut BookBytes, s: SetupNumbers)
    requires filled { Filled book_size book_size (λ i. 0) book.old }
    requires s_value { in_range (setup_with s []) ≡ true }
    ensures { (l : List ℕ) → Written (setup_with s l) 0 0 book.new }
{
    book[..parts::HEAD_BYTES].copy_from_slice(&head_of(s));
}

fn write_marks(book: &mut BookBytes, from: usize, to: usize)
    requires { (from ≤ to) × (to ≤ records) }
    ensures { Marks from to book.old book.new }
{
    for k in from..to {
        let mark = parts::mark(k);
        book[parts::spot(k, 0)] = mark[0];
        book[parts::spot(k, 1)] = mark[1];
    }
}

fn write_limits(book: &mut BookBytes, limits: &[usize])
    requires { Small limits.now }
    ensures { Limited limits.now book.old book.new }
{
    for (j, limit) in limits.iter().enumerate() {
        book[parts::spot(j, parts::TAG_B)] = *limit as u8;
    }
}

// Zeros in one sweep, and the marks one kind of record after the other: so a mark is a constant, and no record asks which it has.
pub fn write_fresh(book: &mut BookBytes, setup: GivenSetup<'_>)
    requires { permits (setup_in setup) ≡ true }
    ensures { book.new ≡ encode (fresh_book (setup_in setup.entry)) }
{
    write_zeros(book);
    write_head(book, setup.numbers);
    write_marks(book, 0, parts::MAIL);
    write_marks(book, parts::MAIL, parts::SHELF);
    write_marks(book, parts::SHELF, parts::RECORDS);
    write_limits(book, setup.limits);
}
