// Answers for a caller in C: the call's number, and the bytes of a value in front of a lent buffer. A buffer too short for it is
// NoRoom, and then nothing changes.

#![tactic(auto)]

ghost use Rattle.std.specs.Prelude.{◌≡◌, true, ℕ, List, [], ◌∷◌, ◌≤◌, length, ltb, IfOk};
ghost use Rattle.tools.specs.Tests.{pick};
ghost use Rattle.tools.specs.Lists.{listed};
ghost use Rattle.rules.specs.Setups.{setup_with, setup_in};
ghost use Rattle.rules.specs.Model.{Value, nothing, refusal};
ghost use Rattle.rules.specs.Labels.{newer};
ghost use Rattle.book.specs.Layout.{record_size};
ghost use Rattle.book.specs.Stamps.{write_stamp, filled};
ghost use Rattle.rules.specs.Replies.{number_in, answer_by, row_of, slot_in, stamped_says, received_says, sent_says};
ghost use Rattle.rules.specs.Replies.{told_says, compared_says, pictured_says, foretold_says};
ghost use Rattle.door.specs.Door.{numbers_by, relation_byte, which_byte, one, lent, byte_to, place_to, learnt_to, slot_to};
ghost use Rattle.door.specs.Door.{odds_to, which_to, foretold_to, record_to};
ghost use Rattle.door.specs.Door.{cramped, Gets, Gives, GivesByte};

use rules::{GivenSetup, Odds, Received, Refusal, Relation, Sent, SetupNumbers, Stamp, Stamped};

// The number of a call that is done.
pub const DONE: u8 = 0;

const NO_ROOM: u8 = Refusal::NoRoom as u8;

// The number of an answer.
pub fn number<T>(answer: &Result<T, Refusal>) -> u8
    ensures { result ≡ number_in answer.now }
{
    match answer {
        Ok(_) => DONE,
        Err(refusal) => refusal.number(),
    }
}

// The number of a call, with NoRoom as one more reason where a lent buffer is too short.
pub fn number_by(short: bool, number: u8) -> u8
    ensures { result ≡ (cramped short (refusal number)).number }
{
    if short & ((number == DONE) | (NO_ROOM < number)) {
        return NO_ROOM;
    }
    number
}

// Whether a buffer is too short for the slot of an event: one that is not kept needs no room.
pub fn slot_short(keep: bool, room: usize) -> bool
    ensures { result ≡ ltb room (pick keep 1 0) }
{
    keep & (room < 1)
}

// The one byte of an accepted call's value.
fn give_byte(target: &mut [u8], value: u8) -> u8
    ensures { GivesByte value target.old target.new result }
{
    if target.len() < 1 {
        return NO_ROOM;
    }
    parts::lend(target, &[value]);
    DONE
}

// An answer whose value is told by one byte.
fn give<T, F: FnOnce(T) -> u8>(target: &mut [u8], answer: Result<T, Refusal>, byte: F) -> u8
    requires { F.IsAlwaysCallable byte }
    ensures { (v : T → Value) (f : Value → List ℕ) → f nothing ≡ [] → ((x : T) (n : ℕ) → F.post byte x n → f (v x) ≡ one n)
        → Gives (answer_by v answer) (lent 1 f target.old target.new ∷ []) result }
{
    match answer {
        Ok(value) => give_byte(target, byte(value)),
        Err(refusal) => number_by(target.len() < 1, refusal.number()),
    }
}

pub fn give_told(target: &mut [u8], told: Result<bool, Refusal>) -> u8
    ensures { Gives (told_says told) (byte_to target.old target.new ∷ []) result }
{
    give(target, told, |yes| u8::from(yes))
}

// No From: it would stand in rules, which knows no bytes of C.
fn relation_byte(relation: Relation) -> u8
    ensures { result ≡ relation_byte relation }
{
    match relation {
        Relation::Before => 1,
        Relation::After => 2,
        Relation::Same => 3,
        Relation::Concurrent => 4,
        Relation::Crossed => 5,
    }
}

pub fn give_relation(target: &mut [u8], compared: Result<Relation, Refusal>) -> u8
    ensures { Gives (compared_says compared) (byte_to target.old target.new ∷ []) result }
{
    give(target, compared, |relation| relation_byte(relation))
}

// Yes as 1, or 0 and the two desks at odds.
pub fn give_pictured(
    answer: &mut [u8],
    odds: &mut [u8],
    pictured: Result<Option<Odds>, Refusal>,
) -> u8
    ensures { Gives (pictured_says pictured) (byte_to answer.old answer.new
        ∷ odds_to odds.old odds.new ∷ []) result }
{
    if (odds.len() < 2) | (answer.len() < 1) {
        return number_by(true, number(&pictured));
    }
    match pictured {
        Ok(None) => {
            parts::lend(answer, &[1]);
            DONE
        }
        Ok(Some(two)) => {
            parts::lend(answer, &[0]);
            parts::lend(odds, &[two.lower, two.higher]);
            DONE
        }
        Err(refusal) => refusal.number(),
    }
}

// 1 for the first of two, 2 for the second, 0 for neither.
fn newer_byte(relation: Relation) -> u8
    ensures { result ≡ which_byte (newer relation) }
{
    match relation {
        Relation::Before => 2,
        Relation::After | Relation::Same => 1,
        Relation::Concurrent | Relation::Crossed => 0,
    }
}

pub fn give_newest(target: &mut [u8], compared: Result<Relation, Refusal>) -> u8
    ensures { Gives (compared_says compared) (which_to target.old target.new ∷ []) result }
{
    give(target, compared, |relation| newer_byte(relation))
}

// The number that a reset would be answered, 0 for yes.
pub fn give_foretold(target: &mut [u8], foretold: Result<Option<Refusal>, Refusal>) -> u8
    ensures { Gives (foretold_says foretold) (foretold_to target.old target.new ∷ []) result }
{
    give(
        target,
        foretold,
        |reset| reset.map_or(DONE, |refusal| refusal.number()),
    )
}

// The stamp of an event as a record, and its slot where it is kept.
fn give_event(stamp: &mut [u8], slot: &mut [u8], desks: u8, own: Stamp, kept: Option<u8>)
    requires { (record_size ≤ length stamp.old) × (length (listed one (slot_in kept)) ≤ length slot.old) }
    ensures record { stamp.new ≡ filled stamp.old (write_stamp desks (record { owner = own.owner; row = row_of own.row })) }
    ensures slot { slot.new ≡ filled slot.old (listed one (slot_in kept)) }
{
    parts::lend(stamp, &labels::record_of(desks, own));
    if let Some(s) = kept {
        parts::lend(slot, &[s]);
    }
}

// The stamp of an accepted event as a record, and its slot where it is kept. All buffers have room.
pub fn give_stamp(
    stamp: &mut [u8],
    slot: &mut [u8],
    desks: u8,
    stamped: Result<Stamped, Refusal>,
) -> u8
    requires record_size_in_bounds { record_size ≤ length stamp.old }
    requires kept_in_bounds { IfOk stamped (λ x. length (listed one (slot_in x.slot)) ≤ length slot.old) }
    ensures { Gets (stamped_says stamped)
        (record_to desks stamp.old stamp.new ∷ slot_to true slot.old slot.new ∷ []) result }
{
    match stamped {
        Ok(event) => {
            give_event(stamp, slot, desks, event.stamp, event.slot);
            DONE
        }
        Err(refusal) => refusal.number(),
    }
}

// The stamp of an accepted receive as a record, of how many desks it learnt, and its slot where it is kept. All buffers have room.
pub fn give_received(
    stamp: &mut [u8],
    learnt: &mut [u8],
    slot: &mut [u8],
    desks: u8,
    received: Result<Received, Refusal>,
) -> u8
    requires record_size_in_bounds { (record_size ≤ length stamp.old) × (1 ≤ length learnt.old) }
    requires kept_in_bounds { IfOk received (λ x. length (listed one (slot_in x.slot)) ≤ length slot.old) }
    ensures { Gets (received_says received)
        (record_to desks stamp.old stamp.new ∷ learnt_to learnt.old learnt.new
        ∷ slot_to true slot.old slot.new ∷ []) result }
{
    match received {
        Ok(event) => {
            give_event(stamp, slot, desks, event.stamp, event.slot);
            parts::lend(learnt, &[event.learnt]);
            DONE
        }
        Err(refusal) => refusal.number(),
    }
}

// The stamp of an accepted send as a record, its place, and its slot where it is kept. All buffers have room.
pub fn give_sent(
    stamp: &mut [u8],
    place: &mut [u8],
    slot: &mut [u8],
    desks: u8,
    sent: Result<Sent, Refusal>,
) -> u8
    requires record_size_in_bounds { (record_size ≤ length stamp.old) × (1 ≤ length place.old) }
    requires kept_in_bounds { IfOk sent (λ x. length (listed one (slot_in x.slot)) ≤ length slot.old) }
    ensures { Gets (sent_says sent)
        (record_to desks stamp.old stamp.new ∷ place_to place.old place.new
        ∷ slot_to true slot.old slot.new ∷ []) result }
{
    match sent {
        Ok(event) => {
            give_event(stamp, slot, desks, event.stamp, event.slot);
            parts::lend(place, &[event.place]);
            DONE
        }
        Err(refusal) => refusal.number(),
    }
}

// The setup that a caller in C gives, number by number.
pub fn setup_by(
    desks: usize,
    phases: usize,
    limits: &[usize],
    seat_lag: usize,
    shelf_lag: usize,
    back: usize,
    ahead: usize,
) -> GivenSetup<'_>
    ensures { setup_in result ≡ setup_with (numbers_by desks phases seat_lag shelf_lag back ahead) limits.now }
{
    let numbers = SetupNumbers {
        desks,
        phases,
        seat_lag,
        shelf_lag,
        back,
        ahead,
    };
    GivenSetup { numbers, limits }
}
