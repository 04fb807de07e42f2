// The C interface (docs/RULES.md): every call over byte slices and numbers. Each answers its number and writes its value into a
// buffer that the caller lends; a buffer too short for it is NoRoom, and then nothing changes. gulambitok_c exports them. So each has
// numbers for C, and stands by itself, however like another.

#![tactic(auto)]

ghost use Rattle.std.specs.Prelude.{◌≡◌, [], ◌∷◌, length};
ghost use Rattle.rules.specs.Setups.{setup_with};
ghost use Rattle.rules.specs.Model;
ghost use Rattle.rules.specs.Calls;
ghost use Rattle.rules.specs.Calls.{on};
ghost use Rattle.book.specs.Answers.{answer_to, target_after, before_of, compare_of};
ghost use Rattle.door.specs.Door.{numbers_by, wished, byte_to, odds_to, place_to, learnt_to, slot_to, which_to, row_to, stamp_to};
ghost use Rattle.door.specs.Door.{Gives, Makes};

// The calls of the office, and may.
pub mod papers;

// Start writes a fresh book: rows zero, no seat started, all places free.
pub fn gulambitok_start(
    book: &mut [u8],
    desks: usize,
    phases: usize,
    limits: &[usize],
    seat_lag: usize,
    shelf_lag: usize,
    back: usize,
    ahead: usize,
) -> u8
    ensures { Makes (Calls.start (setup_with (numbers_by desks phases seat_lag shelf_lag back ahead) limits.now))
        book.old book.new [] result }
{
    let given = door::setup_by(desks, phases, limits, seat_lag, shelf_lag, back, ahead);
    door::number(&portal::start(book, given))
}

// Local: the desk's own clock grows by 1. Where keep is not 0 its stamp is kept, as that of each event.
pub fn gulambitok_local(
    book: &mut [u8],
    desk: usize,
    keep: usize,
    stamp: &mut [u8],
    slot: &mut [u8],
) -> u8
    ensures { Makes (on (Model.local desk (wished keep))) book.old book.new
        (stamp_to book.old stamp.old stamp.new
        ∷ slot_to (wished keep) slot.old slot.new ∷ []) result }
{
    let wish = keep != 0;
    if door::slot_short(wish, slot.len()) | (stamp.len() < parts::RECORD_BYTES) {
        let grant = refusals::local_grant(&book[..], desk, wish);
        return door::number_by(true, door::number(&grant));
    }
    let desks = portal::desks_in(&book[..]);
    let stamped = portal::local(book, desk, wish);
    door::give_stamp(stamp, slot, desks, stamped)
}

// Receive at a desk from a place; any waiting mail may be taken, in any order.
pub fn gulambitok_receive(
    book: &mut [u8],
    desk: usize,
    place: usize,
    keep: usize,
    stamp: &mut [u8],
    learnt: &mut [u8],
    slot: &mut [u8],
) -> u8
    ensures { Makes (on (Model.receive desk place (wished keep))) book.old book.new
        (stamp_to book.old stamp.old stamp.new ∷ learnt_to learnt.old learnt.new
        ∷ slot_to (wished keep) slot.old slot.new ∷ []) result }
{
    let wish = keep != 0;
    if (door::slot_short(wish, slot.len()) | (learnt.len() < 1))
        | (stamp.len() < parts::RECORD_BYTES)
    {
        let grant = refusals::receive_grant(&book[..], desk, place, wish);
        return door::number_by(true, door::number(&grant));
    }
    let desks = portal::desks_in(&book[..]);
    let received = portal::receive(book, desk, place, wish);
    door::give_received(stamp, learnt, slot, desks, received)
}

// Reset: the desk's own phase grows by 1 modulo P and its own clock becomes 0.
pub fn gulambitok_reset(
    book: &mut [u8],
    desk: usize,
    keep: usize,
    stamp: &mut [u8],
    slot: &mut [u8],
) -> u8
    ensures { Makes (on (Model.reset desk (wished keep))) book.old book.new
        (stamp_to book.old stamp.old stamp.new
        ∷ slot_to (wished keep) slot.old slot.new ∷ []) result }
{
    let wish = keep != 0;
    if door::slot_short(wish, slot.len()) | (stamp.len() < parts::RECORD_BYTES) {
        let grant = refusals::reset_grant(&book[..], desk, wish);
        return door::number_by(true, door::number(&grant));
    }
    let desks = portal::desks_in(&book[..]);
    let stamped = portal::reset(book, desk, wish);
    door::give_stamp(stamp, slot, desks, stamped)
}

// Send from a desk to another: as local, then the row goes into the lowest free mail place.
pub fn gulambitok_send(
    book: &mut [u8],
    desk: usize,
    to: usize,
    keep: usize,
    stamp: &mut [u8],
    place: &mut [u8],
    slot: &mut [u8],
) -> u8
    ensures { Makes (on (Model.send desk to (wished keep))) book.old book.new
        (stamp_to book.old stamp.old stamp.new ∷ place_to place.old place.new
        ∷ slot_to (wished keep) slot.old slot.new ∷ []) result }
{
    let wish = keep != 0;
    if (door::slot_short(wish, slot.len()) | (place.len() < 1))
        | (stamp.len() < parts::RECORD_BYTES)
    {
        let grant = refusals::send_grant(&book[..], desk, to, wish);
        return door::number_by(true, door::number(&grant));
    }
    let desks = portal::desks_in(&book[..]);
    let sent = portal::send(book, desk, to, wish);
    door::give_sent(stamp, place, slot, desks, sent)
}

// Drop frees a slot.
pub fn gulambitok_drop(book: &mut [u8], slot: usize) -> u8
    ensures { Makes (on (Model.drop slot)) book.old book.new [] result }
{
    door::number(&portal::drop(book, slot))
}

// Discard frees a mail place.
pub fn gulambitok_discard(book: &mut [u8], place: usize) -> u8
    ensures { Makes (on (Model.discard place)) book.old book.new [] result }
{
    door::number(&portal::discard(book, place))
}

// Before, of two slots: 1 for yes, 0 for no.
pub fn gulambitok_before(book: &[u8], first: usize, second: usize, answer: &mut [u8]) -> u8
    ensures { Gives (answer_to book.now (on (Model.before first second)))
        (byte_to answer.old answer.new ∷ []) result }
{
    door::give_told(answer, portal::before(book, first, second))
}

// Compare, of two slots: 1 before, 2 after, 3 same, 4 concurrent, 5 crossed.
pub fn gulambitok_compare(book: &[u8], first: usize, second: usize, answer: &mut [u8]) -> u8
    ensures { Gives (answer_to book.now (on (Model.compare first second)))
        (byte_to answer.old answer.new ∷ []) result }
{
    door::give_relation(answer, portal::compare(book, first, second))
}

// Picture, of the stamps in a list of slots, one for each desk: 1 where the portal could have stood so, else 0 and two desks at odds.
pub fn gulambitok_picture(book: &[u8], slots: &[usize], answer: &mut [u8], odds: &mut [u8]) -> u8
    ensures { Gives (answer_to book.now (on (Model.picture slots.now)))
        (byte_to answer.old answer.new ∷ odds_to odds.old odds.new ∷ []) result }
{
    door::give_pictured(answer, odds, portal::picture(book, slots))
}

// Show copies the sixteen row bytes of a slot.
pub fn gulambitok_show(book: &[u8], slot: usize, row: &mut [u8]) -> u8
    ensures { Gives (answer_to book.now (on (Model.show slot)))
        (row_to row.old row.new ∷ []) result }
{
    let n = door::number(&refusals::show_check(book, slot));
    if row.len() < parts::ROW_BYTES {
        return door::number_by(true, n);
    }
    if n != door::DONE {
        return n;
    }
    parts::lend(row, asking::row_part(book, slot));
    door::DONE
}

// Write fills the first 20 bytes with the stamp record of a slot, and no more.
pub fn gulambitok_write(book: &[u8], slot: usize, target: &mut [u8]) -> u8
    ensures value { result ≡ (answer_to book.now (on (Model.write slot (length target.old)))).number }
    ensures target_after { target.new ≡ target_after book.now slot target.old }
{
    door::number(&portal::write(book, slot, target))
}

// Before, of two stamp records: 1 for yes, 0 for no.
pub fn gulambitok_label_before(
    desks: usize,
    phases: usize,
    limits: &[usize],
    seat_lag: usize,
    shelf_lag: usize,
    back: usize,
    ahead: usize,
    first: &[u8],
    second: &[u8],
    answer: &mut [u8],
) -> u8
    ensures { Gives
        (before_of (setup_with (numbers_by desks phases seat_lag shelf_lag back ahead) limits.now) first.now second.now)
        (byte_to answer.old answer.new ∷ []) result }
{
    let setup = door::setup_by(desks, phases, limits, seat_lag, shelf_lag, back, ahead);
    door::give_told(answer, labels::before(setup, first, second))
}

// Compare, of two stamp records: 1 before, 2 after, 3 same, 4 concurrent, 5 crossed.
pub fn gulambitok_label_compare(
    desks: usize,
    phases: usize,
    limits: &[usize],
    seat_lag: usize,
    shelf_lag: usize,
    back: usize,
    ahead: usize,
    first: &[u8],
    second: &[u8],
    answer: &mut [u8],
) -> u8
    ensures { Gives
        (compare_of (setup_with (numbers_by desks phases seat_lag shelf_lag back ahead) limits.now) first.now second.now)
        (byte_to answer.old answer.new ∷ []) result }
{
    let setup = door::setup_by(desks, phases, limits, seat_lag, shelf_lag, back, ahead);
    door::give_relation(answer, labels::compare(setup, first, second))
}

// Newest of two stamp records: 1 the first, 2 the second, 0 neither.
pub fn gulambitok_label_newest(
    desks: usize,
    phases: usize,
    limits: &[usize],
    seat_lag: usize,
    shelf_lag: usize,
    back: usize,
    ahead: usize,
    first: &[u8],
    second: &[u8],
    answer: &mut [u8],
) -> u8
    ensures { Gives
        (compare_of (setup_with (numbers_by desks phases seat_lag shelf_lag back ahead) limits.now) first.now second.now)
        (which_to answer.old answer.new ∷ []) result }
{
    let setup = door::setup_by(desks, phases, limits, seat_lag, shelf_lag, back, ahead);
    door::give_newest(answer, labels::compare(setup, first, second))
}
