// The C interface (docs/RULES.md), as an archive exports it: each function is that of gulambitok by its name.

#![tactic(auto)]

ghost use Rattle.std.specs.Prelude.{◌≡◌, [], ◌∷◌, length};
ghost use Rattle.rules.specs.Setups.{setup_with};
ghost use Rattle.rules.specs.Model;
ghost use Rattle.rules.specs.Calls;
ghost use Rattle.rules.specs.Calls.{on};
ghost use Rattle.book.specs.Answers.{answer_to, target_after, before_of, compare_of};
ghost use Rattle.door.specs.Door.{numbers_by, wished, byte_to, odds_to, place_to, learnt_to, slot_to, which_to, row_to, stamp_to};
ghost use Rattle.door.specs.Door.{Gives, Makes};

// The calls of the office, and may.
pub mod papers;

// Start writes a fresh book: rows zero, no seat started, all places free.
#[unsafe(no_mangle)]
pub extern "C" fn gulambitok_start(
    book: &mut [u8],
    desks: usize,
    phases: usize,
    limits: &[usize],
    seat_lag: usize,
    shelf_lag: usize,
    back: usize,
    ahead: usize,
) -> u8
    ensures { Makes (Calls.start (setup_with (numbers_by desks phases seat_lag shelf_lag back ahead) limits.now))
        book.old book.new [] result }
{
    gulambitok::gulambitok_start(
        book, desks, phases, limits, seat_lag, shelf_lag, back, ahead,
    )
}

// Local: the desk's own clock grows by 1. Where keep is not 0 its stamp is kept, as that of each event.
#[unsafe(no_mangle)]
pub extern "C" fn gulambitok_local(
    book: &mut [u8],
    desk: usize,
    keep: usize,
    stamp: &mut [u8],
    slot: &mut [u8],
) -> u8
    ensures { Makes (on (Model.local desk (wished keep))) book.old book.new
        (stamp_to book.old stamp.old stamp.new
        ∷ slot_to (wished keep) slot.old slot.new ∷ []) result }
{
    gulambitok::gulambitok_local(book, desk, keep, stamp, slot)
}

// Receive at a desk from a place; any waiting mail may be taken, in any order.
#[unsafe(no_mangle)]
pub extern "C" fn gulambitok_receive(
    book: &mut [u8],
    desk: usize,
    place: usize,
    keep: usize,
    stamp: &mut [u8],
    learnt: &mut [u8],
    slot: &mut [u8],
) -> u8
    ensures { Makes (on (Model.receive desk place (wished keep))) book.old book.new
        (stamp_to book.old stamp.old stamp.new ∷ learnt_to learnt.old learnt.new
        ∷ slot_to (wished keep) slot.old slot.new ∷ []) result }
{
    gulambitok::gulambitok_receive(book, desk, place, keep, stamp, learnt, slot)
}

// Reset: the desk's own phase grows by 1 modulo P and its own clock becomes 0.
#[unsafe(no_mangle)]
pub extern "C" fn gulambitok_reset(
    book: &mut [u8],
    desk: usize,
    keep: usize,
    stamp: &mut [u8],
    slot: &mut [u8],
) -> u8
    ensures { Makes (on (Model.reset desk (wished keep))) book.old book.new
        (stamp_to book.old stamp.old stamp.new
        ∷ slot_to (wished keep) slot.old slot.new ∷ []) result }
{
    gulambitok::gulambitok_reset(book, desk, keep, stamp, slot)
}

// Send from a desk to another: as local, then the row goes into the lowest free mail place.
#[unsafe(no_mangle)]
pub extern "C" fn gulambitok_send(
    book: &mut [u8],
    desk: usize,
    to: usize,
    keep: usize,
    stamp: &mut [u8],
    place: &mut [u8],
    slot: &mut [u8],
) -> u8
    ensures { Makes (on (Model.send desk to (wished keep))) book.old book.new
        (stamp_to book.old stamp.old stamp.new ∷ place_to place.old place.new
        ∷ slot_to (wished keep) slot.old slot.new ∷ []) result }
{
    gulambitok::gulambitok_send(book, desk, to, keep, stamp, place, slot)
}

// Drop frees a slot.
#[unsafe(no_mangle)]
pub extern "C" fn gulambitok_drop(book: &mut [u8], slot: usize) -> u8
    ensures { Makes (on (Model.drop slot)) book.old book.new [] result }
{
    gulambitok::gulambitok_drop(book, slot)
}

// Discard frees a mail place.
#[unsafe(no_mangle)]
pub extern "C" fn gulambitok_discard(book: &mut [u8], place: usize) -> u8
    ensures { Makes (on (Model.discard place)) book.old book.new [] result }
{
    gulambitok::gulambitok_discard(book, place)
}

// Before, of two slots: 1 for yes, 0 for no.
#[unsafe(no_mangle)]
pub extern "C" fn gulambitok_before(
    book: &[u8],
    first: usize,
    second: usize,
    answer: &mut [u8],
) -> u8
    ensures { Gives (answer_to book.now (on (Model.before first second)))
        (byte_to answer.old answer.new ∷ []) result }
{
    gulambitok::gulambitok_before(book, first, second, answer)
}

// Compare, of two slots: 1 before, 2 after, 3 same, 4 concurrent, 5 crossed.
#[unsafe(no_mangle)]
pub extern "C" fn gulambitok_compare(
    book: &[u8],
    first: usize,
    second: usize,
    answer: &mut [u8],
) -> u8
    ensures { Gives (answer_to book.now (on (Model.compare first second)))
        (byte_to answer.old answer.new ∷ []) result }
{
    gulambitok::gulambitok_compare(book, first, second, answer)
}

// Picture, of the stamps in a list of slots, one for each desk: 1 where the portal could have stood so, else 0 and two desks at odds.
#[unsafe(no_mangle)]
pub extern "C" fn gulambitok_picture(
    book: &[u8],
    slots: &[usize],
    answer: &mut [u8],
    odds: &mut [u8],
) -> u8
    ensures { Gives (answer_to book.now (on (Model.picture slots.now)))
        (byte_to answer.old answer.new ∷ odds_to odds.old odds.new ∷ []) result }
{
    gulambitok::gulambitok_picture(book, slots, answer, odds)
}

// Show copies the sixteen row bytes of a slot.
#[unsafe(no_mangle)]
pub extern "C" fn gulambitok_show(book: &[u8], slot: usize, row: &mut [u8]) -> u8
    ensures { Gives (answer_to book.now (on (Model.show slot)))
        (row_to row.old row.new ∷ []) result }
{
    gulambitok::gulambitok_show(book, slot, row)
}

// Write fills the first 20 bytes with the stamp record of a slot, and no more.
#[unsafe(no_mangle)]
pub extern "C" fn gulambitok_write(book: &[u8], slot: usize, target: &mut [u8]) -> u8
    ensures value { result ≡ (answer_to book.now (on (Model.write slot (length target.old)))).number }
    ensures target_after { target.new ≡ target_after book.now slot target.old }
{
    gulambitok::gulambitok_write(book, slot, target)
}

// Before, of two stamp records: 1 for yes, 0 for no.
#[unsafe(no_mangle)]
pub extern "C" fn gulambitok_label_before(
    desks: usize,
    phases: usize,
    limits: &[usize],
    seat_lag: usize,
    shelf_lag: usize,
    back: usize,
    ahead: usize,
    first: &[u8],
    second: &[u8],
    answer: &mut [u8],
) -> u8
    ensures { Gives
        (before_of (setup_with (numbers_by desks phases seat_lag shelf_lag back ahead) limits.now) first.now second.now)
        (byte_to answer.old answer.new ∷ []) result }
{
    gulambitok::gulambitok_label_before(
        desks, phases, limits, seat_lag, shelf_lag, back, ahead, first, second, answer,
    )
}

// Compare, of two stamp records: 1 before, 2 after, 3 same, 4 concurrent, 5 crossed.
#[unsafe(no_mangle)]
pub extern "C" fn gulambitok_label_compare(
    desks: usize,
    phases: usize,
    limits: &[usize],
    seat_lag: usize,
    shelf_lag: usize,
    back: usize,
    ahead: usize,
    first: &[u8],
    second: &[u8],
    answer: &mut [u8],
) -> u8
    ensures { Gives
        (compare_of (setup_with (numbers_by desks phases seat_lag shelf_lag back ahead) limits.now) first.now second.now)
        (byte_to answer.old answer.new ∷ []) result }
{
    gulambitok::gulambitok_label_compare(
        desks, phases, limits, seat_lag, shelf_lag, back, ahead, first, second, answer,
    )
}

// Newest of two stamp records: 1 the first, 2 the second, 0 neither.
#[unsafe(no_mangle)]
pub extern "C" fn gulambitok_label_newest(
    desks: usize,
    phases: usize,
    limits: &[usize],
    seat_lag: usize,
    shelf_lag: usize,
    back: usize,
    ahead: usize,
    first: &[u8],
    second: &[u8],
    answer: &mut [u8],
) -> u8
    ensures { Gives
        (compare_of (setup_with (numbers_by desks phases seat_lag shelf_lag back ahead) limits.now) first.now second.now)
        (which_to answer.old answer.new ∷ []) result }
{
    gulambitok::gulambitok_label_newest(
        desks, phases, limits, seat_lag, shelf_lag, back, ahead, first, second, answer,
    )
}
