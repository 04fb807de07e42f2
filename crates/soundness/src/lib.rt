// Whether the bytes of a book are sound.

#![tactic(auto)]

ghost use Rattle.std.specs.Prelude.{◌≡◌, ℕ, Bool, ◌<◌, ◌≤◌};
ghost use Rattle.ring.specs.Phases.{lag_of};
ghost use Rattle.tools.specs.Tests.{all_below};
ghost use Rattle.book.specs.Layout.{spare_size, records, shelf_from, mail_from, fields};
ghost use Rattle.book.specs.Sound;
ghost use Rattle.book.specs.Sound.{record_ok, spare_zero, head_ok, record_sound};

use contents::{Checked, Columns};
use parts::{BOOK_BYTES, BookBytes};

// Whether record k has its mark, and its contents are in order.
#[tactic(auto, unfolding(book::specs::Sound::record_sound, tools::specs::Tests::all_of))]
fn marked(book: &BookBytes, k: usize, ok: bool) -> bool
    requires { (k < records) × (ok ≡ record_ok lag_of (fields book.now) k) }
    ensures { result ≡ record_sound lag_of book.now k }
{
    let mark = parts::mark(k);
    (parts::byte_at(book, k, 0) == mark[0]) & ((parts::byte_at(book, k, 1) == mark[1]) & ok)
}

fn place_sound(checked: Checked<'_>, k: usize) -> bool
    requires { (mail_from ≤ k) × (k < shelf_from) }
    ensures { result ≡ record_sound lag_of checked.entry.book.now k }
{
    let book = checked.book;
    if parts::tag_a(book, k) == parts::FREE {
        return marked(book, k, contents::free_ok(book, k));
    }
    marked(book, k, checked.mail_ok(k))
}

// As of a place, by another test: a function that is lent the test needs a longer contract than this one.
fn slot_sound(checked: Checked<'_>, k: usize) -> bool
    requires { (shelf_from ≤ k) × (k < records) }
    ensures { result ≡ record_sound lag_of checked.entry.book.now k }
{
    let book = checked.book;
    if parts::tag_a(book, k) == parts::FREE {
        return marked(book, k, contents::free_ok(book, k));
    }
    marked(book, k, checked.slot_ok(k))
}

// The records of one kind behind those that were gone through: so a mark is a constant, and no record is asked for its kind.
#[tactic(auto, unfolding(tools::specs::Tests::all_below))]
fn all_sound<F: Fn(usize) -> bool>(
    book: &BookBytes,
    from: usize,
    to: usize,
    before: bool,
    sound: F,
) -> bool
    requires range { from ≤ to }
    requires start { before ≡ all_below from (record_sound lag_of book.now) }
    requires may { (k : ℕ) → from ≤ k → k < to → F.pre sound k }
    requires says { (k : ℕ) (r : Bool) → from ≤ k → k < to → F.post sound k r → r ≡ record_sound lag_of book.now k }
    ensures { result ≡ all_below to (record_sound lag_of book.now) }
{
    let mut ok = before;
    for k in from..to {
        ok = ok & sound(k);
    }
    ok
}

fn records_sound(book: &BookBytes) -> bool
    ensures { result ≡ all_below records (record_sound lag_of book.now) }
{
    if !contents::limits_ok(book) {
        return false;
    }
    let mut columns = Columns {
        last: [0; 8],
        own: [0; 8],
        clock: [0; 8],
    };
    contents::fill_columns(book, &mut columns);
    let checked = Checked {
        book,
        columns: &columns,
    };
    let seats = all_sound(
        book,
        0,
        parts::MAIL,
        true,
        |k| marked(book, k, checked.seat_ok(k)),
    );
    let mail = all_sound(
        book,
        parts::MAIL,
        parts::SHELF,
        seats,
        |k| place_sound(checked, k),
    );
    all_sound(
        book,
        parts::SHELF,
        parts::RECORDS,
        mail,
        |k| slot_sound(checked, k),
    )
}

#[tactic(auto, unfolding(book::specs::Sound::spare_zero, tools::specs::Tests::all_below))]
fn spare_zero(book: &BookBytes) -> bool
    ensures { result ≡ all_below spare_size (spare_zero book.now) }
{
    let mut ok = true;
    for i in 0..parts::SPARE_BYTES {
        ok = ok & (book[parts::SPARE_AT + i] == 0);
    }
    ok
}

#[tactic(auto, unfolding(book::specs::Sound::head_ok, tools::specs::Tests::all_of))]
fn head_ok(book: &BookBytes) -> bool
    ensures { result ≡ head_ok book.now }
{
    (book[0] == parts::BOOK_MARK0)
        & ((book[1] == parts::BOOK_MARK1) & ((book[parts::BLANK_AT] == 0) & spare_zero(book)))
}

// The records come first: nothing has to be held for later while they are gone through. Those of the seats ask the limits.
pub fn sound(book: &[u8]) -> bool
    ensures { result ≡ Sound.sound book.now }
{
    let Some(book) = book.as_array::<BOOK_BYTES>() else {
        return false;
    };
    let records = records_sound(book);
    head_ok(book) & (setups::numbers_ok(parts::numbers_of(book)) & records)
}
