// Answers as lines of text, each written into a lent buffer from a place on, or given as a line of its own.

#![tactic(auto)]

ghost use Rattle.std.specs.Prelude.{ℕ, ◌≡◌, ◌+◌, ◌≤◌, [], ◌∷◌, ◌++◌, length};
ghost use Rattle.text.specs.Put.{Wrote, three, field};
ghost use Rattle.rules.specs.Model.{Value, accepted, refusal, says, relates, names};
ghost use Rattle.rules.specs.Replies.{answer_by, number_in, row_of, slot_in};
ghost use Rattle.rules.specs.Replies.{done_value, stamped_value, received_value, sent_value, odds_value, reset_value};
ghost use Rattle.replies.specs.Print.{pair, stamp_text, then, answer_text, longest};

// Answers as lines of their own.
mod lines;

pub use lines::{Line, Reply, line_of};
use rules::{Odds, Received, Refusal, Relation, Sent, Stamp, Stamped};

// The bytes of the longest line.
pub const LONGEST: usize = 80;

// The number of an answer that is done.
const DONE: u8 = 0;

// What an accepted call gives, and how the line that tells it is written into a lent buffer.
pub trait Put {
    // Its value, by the rules.
    ghost value: { Self → Value };

    // Of how many desks its line can tell.
    ghost printable: { ℕ → Type 0 };

    // How many bytes its line takes at most.
    ghost room: { ℕ };

    // Its line is written, in a book of so many desks; the answer is the place after it.
    fn put(self, out: &mut [u8], at: usize, desks: u8) -> usize
        requires room { at + room ≤ length out.old }
        requires printable { printable desks }
        ensures { Wrote out.old at (answer_text desks (accepted (value self))) out.new result };
}

// A space and a number.
fn put_field(out: &mut [u8], at: usize, n: u8) -> usize
    requires { at + 4 ≤ length out.old }
    ensures { Wrote out.old at (field n) out.new result }
{
    let a = text::put_byte(out, at, b' ');
    text::put_three(out, a, n)
}

// A space and a pair.
fn put_pair(out: &mut [u8], at: usize, phase: u8, clock: u8) -> usize
    requires { at + 8 ≤ length out.old }
    ensures { Wrote out.old at (pair phase clock) out.new result }
{
    let a = put_field(out, at, phase);
    let b = text::put_byte(out, a, b'.');
    text::put_three(out, b, clock)
}

// The owner of a stamp, and the pairs of the first desks of its row.
fn put_stamp(out: &mut [u8], at: usize, desks: u8, stamp: Stamp) -> usize
    requires { (desks ≤ 8) × (at + 68 ≤ length out.old) }
    ensures { Wrote out.old at (stamp_text desks stamp.owner (row_of stamp.row)) out.new result }
{
    let mut a = put_field(out, at, stamp.owner);
    for j in 0..usize::from(desks) {
        a = put_pair(
            out,
            a,
            stamp.row[parts::phase_spot(j)],
            stamp.row[parts::clock_spot(j)],
        );
    }
    a
}

// The slot of an event that is kept; nothing where it is not.
fn put_slot(out: &mut [u8], at: usize, slot: Option<u8>) -> usize
    requires { at + 4 ≤ length out.old }
    ensures { Wrote out.old at (then [] field (slot_in slot)) out.new result }
{
    match slot {
        None => at,
        Some(n) => put_field(out, at, n),
    }
}

// The line of an answer that is a number alone: a refusal, or done.
pub fn put_number(out: &mut [u8], at: usize, n: u8) -> usize
    requires { at + 4 ≤ length out.old }
    ensures { (D : ℕ) → Wrote out.old at (answer_text D (refusal n)) out.new result }
{
    let a = text::put_three(out, at, n);
    text::put_byte(out, a, b'\n')
}

// The line of two desks at odds.
fn put_odds(out: &mut [u8], at: usize, lower: u8, higher: u8) -> usize
    requires { at + 12 ≤ length out.old }
    ensures { (D : ℕ) → Wrote out.old at (answer_text D (accepted (names lower higher))) out.new result }
{
    let a = text::put_three(out, at, DONE);
    let b = put_field(out, a, lower);
    let c = put_field(out, b, higher);
    text::put_byte(out, c, b'\n')
}

// The line of a reset that would be refused with a number.
fn put_foretold(out: &mut [u8], at: usize, number: u8) -> usize
    requires { at + 8 ≤ length out.old }
    ensures { Wrote out.old at (three 0 ++ field number ++ 10 ∷ []) out.new result }
{
    let a = text::put_three(out, at, DONE);
    let b = put_field(out, a, number);
    text::put_byte(out, b, b'\n')
}

// Of a call that gives nothing: the number alone.
impl Put for () {
    ghost value = { done_value };

    ghost printable = { λ n. Unit {0} };

    ghost room = { 4 };

    fn put(self, out: &mut [u8], at: usize, desks: u8) -> usize {
        put_number(out, at, DONE)
    }
}

// Of local and reset.
impl Put for Stamped {
    ghost value = { stamped_value };

    ghost printable = { λ n. n ≤ 8 };

    ghost room = { longest };

    fn put(self, out: &mut [u8], at: usize, desks: u8) -> usize {
        let Stamped { stamp, slot } = self;
        let a = text::put_three(out, at, DONE);
        let b = put_stamp(out, a, desks, stamp);
        let c = put_slot(out, b, slot);
        text::put_byte(out, c, b'\n')
    }
}

// Of receive.
impl Put for Received {
    ghost value = { received_value };

    ghost printable = { λ n. n ≤ 8 };

    ghost room = { longest };

    fn put(self, out: &mut [u8], at: usize, desks: u8) -> usize {
        let Received {
            stamp,
            learnt,
            slot,
        } = self;
        let a = text::put_three(out, at, DONE);
        let b = put_stamp(out, a, desks, stamp);
        let c = put_field(out, b, learnt);
        let d = put_slot(out, c, slot);
        text::put_byte(out, d, b'\n')
    }
}

// Of send.
impl Put for Sent {
    ghost value = { sent_value };

    ghost printable = { λ n. n ≤ 8 };

    ghost room = { longest };

    fn put(self, out: &mut [u8], at: usize, desks: u8) -> usize {
        let Sent { place, stamp, slot } = self;
        let a = text::put_three(out, at, DONE);
        let b = put_field(out, a, place);
        let c = put_stamp(out, b, desks, stamp);
        let d = put_slot(out, c, slot);
        text::put_byte(out, d, b'\n')
    }
}

// Of before.
impl Put for bool {
    ghost value = { says };

    ghost printable = { λ n. Unit {0} };

    ghost room = { 8 };

    fn put(self, out: &mut [u8], at: usize, desks: u8) -> usize {
        if self {
            text::put_text(out, at, b"000 yes\n")
        } else {
            text::put_text(out, at, b"000 no\n")
        }
    }
}

// Of compare: the relation in words.
impl Put for Relation {
    ghost value = { relates };

    ghost printable = { λ n. Unit {0} };

    ghost room = { 15 };

    fn put(self, out: &mut [u8], at: usize, desks: u8) -> usize {
        match self {
            Relation::Before => text::put_text(out, at, b"000 before\n"),
            Relation::After => text::put_text(out, at, b"000 after\n"),
            Relation::Same => text::put_text(out, at, b"000 same\n"),
            Relation::Concurrent => text::put_text(out, at, b"000 concurrent\n"),
            Relation::Crossed => text::put_text(out, at, b"000 crossed\n"),
        }
    }
}

// Of picture: yes, or the two desks at odds.
impl Put for Option<Odds> {
    ghost value = { odds_value };

    ghost printable = { λ n. Unit {0} };

    ghost room = { 12 };

    fn put(self, out: &mut [u8], at: usize, desks: u8) -> usize {
        let Some(Odds { lower, higher }) = self else {
            return true.put(out, at, desks);
        };
        put_odds(out, at, lower, higher)
    }
}

// Of may: yes, or the number that a reset would be answered.
impl Put for Option<Refusal> {
    ghost value = { reset_value };

    ghost printable = { λ n. Unit {0} };

    ghost room = { 8 };

    fn put(self, out: &mut [u8], at: usize, desks: u8) -> usize {
        match self {
            None => true.put(out, at, desks),
            Some(refusal) => put_foretold(out, at, refusal.number()),
        }
    }
}

// The line of an answer, in a book of so many desks.
pub fn put_answer<T: Put + Drop>(
    out: &mut [u8],
    at: usize,
    desks: u8,
    answer: Result<T, Refusal>,
) -> usize
    requires room { (at + 4 ≤ length out.old) × (at + T.room ≤ length out.old) }
    requires printable { number_in answer ≡ 0 → T.printable desks }
    ensures { Wrote out.old at (answer_text desks (answer_by T.value answer)) out.new result }
{
    match answer {
        Ok(value) => value.put(out, at, desks),
        Err(refusal) => put_number(out, at, refusal.number()),
    }
}
