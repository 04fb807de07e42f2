// The C interface of the office (docs/RULES.md): start and every change with the book and the papers beside it, and may, which asks a
// paper without the book. A further paper is a further buffer of each call, right behind those that are here.
ghost use Rattle.std.specs.Prelude.{[], ◌∷◌};
ghost use Rattle.rules.specs.Setups.{setup_with};
ghost use Rattle.rules.specs.Model;
ghost use Rattle.rules.specs.Calls;
ghost use Rattle.rules.specs.Calls.{on};
ghost use Rattle.summary.specs.May.{may_of};
ghost use Rattle.office.specs.Office.{folder};
ghost use Rattle.door.specs.Door.{numbers_by, wished, place_to, learnt_to, slot_to, stamp_to, foretold_to, Gives};
ghost use Rattle.gulambitok.specs.Filed.{Files};

// Start, with the papers beside the book.
pub fn gulambitok_office_start(
    book: &mut [u8],
    summary: &mut [u8],
    desks: usize,
    phases: usize,
    limits: &[usize],
    seat_lag: usize,
    shelf_lag: usize,
    back: usize,
    ahead: usize,
) -> u8
    ensures { Files (Calls.start (setup_with (numbers_by desks phases seat_lag shelf_lag back ahead) limits.now))
        (folder book.old summary.old) (folder book.new summary.new) [] result }
{
    let given = door::setup_by(desks, phases, limits, seat_lag, shelf_lag, back, ahead);
    door::number(&office::start(book, summary, given))
}

// Local, with the papers beside the book.
pub fn gulambitok_office_local(
    book: &mut [u8],
    summary: &mut [u8],
    desk: usize,
    keep: usize,
    stamp: &mut [u8],
    slot: &mut [u8],
) -> u8
    ensures { Files (on (Model.local desk (wished keep)))
        (folder book.old summary.old) (folder book.new summary.new)
        (stamp_to book.old stamp.old stamp.new
        ∷ slot_to (wished keep) slot.old slot.new ∷ []) result }
{
    let wish = keep != 0;
    if door::slot_short(wish, slot.len()) | (stamp.len() < parts::RECORD_BYTES) {
        let grant = refusals::local_grant(&book[..], desk, wish);
        return door::number_by(true, door::number(&grant));
    }
    let desks = portal::desks_in(&book[..]);
    let stamped = office::local(book, summary, desk, wish);
    door::give_stamp(stamp, slot, desks, stamped)
}

// Send, with the papers beside the book.
pub fn gulambitok_office_send(
    book: &mut [u8],
    summary: &mut [u8],
    desk: usize,
    to: usize,
    keep: usize,
    stamp: &mut [u8],
    place: &mut [u8],
    slot: &mut [u8],
) -> u8
    ensures { Files (on (Model.send desk to (wished keep)))
        (folder book.old summary.old) (folder book.new summary.new)
        (stamp_to book.old stamp.old stamp.new ∷ place_to place.old place.new
        ∷ slot_to (wished keep) slot.old slot.new ∷ []) result }
{
    let wish = keep != 0;
    if (door::slot_short(wish, slot.len()) | (place.len() < 1))
        | (stamp.len() < parts::RECORD_BYTES)
    {
        let grant = refusals::send_grant(&book[..], desk, to, wish);
        return door::number_by(true, door::number(&grant));
    }
    let desks = portal::desks_in(&book[..]);
    let sent = office::send(book, summary, desk, to, wish);
    door::give_sent(stamp, place, slot, desks, sent)
}

// Receive, with the papers beside the book.
pub fn gulambitok_office_receive(
    book: &mut [u8],
    summary: &mut [u8],
    desk: usize,
    place: usize,
    keep: usize,
    stamp: &mut [u8],
    learnt: &mut [u8],
    slot: &mut [u8],
) -> u8
    ensures { Files (on (Model.receive desk place (wished keep)))
        (folder book.old summary.old) (folder book.new summary.new)
        (stamp_to book.old stamp.old stamp.new ∷ learnt_to learnt.old learnt.new
        ∷ slot_to (wished keep) slot.old slot.new ∷ []) result }
{
    let wish = keep != 0;
    if (door::slot_short(wish, slot.len()) | (learnt.len() < 1))
        | (stamp.len() < parts::RECORD_BYTES)
    {
        let grant = refusals::receive_grant(&book[..], desk, place, wish);
        return door::number_by(true, door::number(&grant));
    }
    let desks = portal::desks_in(&book[..]);
    let received = office::receive(book, summary, desk, place, wish);
    door::give_received(stamp, learnt, slot, desks, received)
}

// Reset, with the papers beside the book.
pub fn gulambitok_office_reset(
    book: &mut [u8],
    summary: &mut [u8],
    desk: usize,
    keep: usize,
    stamp: &mut [u8],
    slot: &mut [u8],
) -> u8
    ensures { Files (on (Model.reset desk (wished keep)))
        (folder book.old summary.old) (folder book.new summary.new)
        (stamp_to book.old stamp.old stamp.new
        ∷ slot_to (wished keep) slot.old slot.new ∷ []) result }
{
    let wish = keep != 0;
    if door::slot_short(wish, slot.len()) | (stamp.len() < parts::RECORD_BYTES) {
        let grant = refusals::reset_grant(&book[..], desk, wish);
        return door::number_by(true, door::number(&grant));
    }
    let desks = portal::desks_in(&book[..]);
    let stamped = office::reset(book, summary, desk, wish);
    door::give_stamp(stamp, slot, desks, stamped)
}

// Drop, with the papers beside the book.
pub fn gulambitok_office_drop(book: &mut [u8], summary: &mut [u8], slot: usize) -> u8
    ensures { Files (on (Model.drop slot))
        (folder book.old summary.old) (folder book.new summary.new) [] result }
{
    door::number(&office::drop(book, summary, slot))
}

// Discard, with the papers beside the book.
pub fn gulambitok_office_discard(book: &mut [u8], summary: &mut [u8], place: usize) -> u8
    ensures { Files (on (Model.discard place))
        (folder book.old summary.old) (folder book.new summary.new) [] result }
{
    door::number(&office::discard(book, summary, place))
}

// May: the number that a reset at a desk would be answered, by a setup and a summary alone; 0 for yes.
pub fn gulambitok_may(
    desks: usize,
    phases: usize,
    limits: &[usize],
    seat_lag: usize,
    shelf_lag: usize,
    back: usize,
    ahead: usize,
    summary: &[u8],
    desk: usize,
    answer: &mut [u8],
) -> u8
    ensures { Gives
        (may_of (setup_with (numbers_by desks phases seat_lag shelf_lag back ahead) limits.now) summary.now desk)
        (foretold_to answer.old answer.new ∷ []) result }
{
    let setup = door::setup_by(desks, phases, limits, seat_lag, shelf_lag, back, ahead);
    door::give_foretold(answer, summary::may(setup, summary, desk))
}
