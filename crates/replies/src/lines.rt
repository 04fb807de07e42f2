// Answers as lines of their own, each as it is written into a buffer.

ghost use Rattle.std.specs.Prelude.{ℕ, ◌≡◌, ◌≤◌, take};
ghost use Rattle.rules.specs.Model.{Value, accepted, refusal, says, relates};
ghost use Rattle.rules.specs.Replies.{answer_by, number_in};
ghost use Rattle.rules.specs.Replies.{done_value, stamped_value, received_value, sent_value, odds_value, reset_value};
ghost use Rattle.replies.specs.Print.{answer_text, longest};

use crate::{LONGEST, Put, put_number};
use arrayvec::ArrayVec;
use rules::{Odds, Received, Refusal, Relation, Sent, Stamped};

// A line of text.
pub type Line = ArrayVec<u8, LONGEST>;

// What an accepted call gives, and the line that tells it.
pub trait Reply {
    // Its value, by the rules.
    ghost value: { Self → Value };

    // Of how many desks its line can tell.
    ghost printable: { ℕ → Type 0 };

    // Its line, in a book of so many desks.
    fn line(self, desks: u8) -> Line
        requires { printable desks }
        ensures { result.items ≡ answer_text desks (accepted (value self)) };
}

// The line that a buffer has up to a place.
fn line_to(space: &[u8; LONGEST], end: usize) -> Line
    requires { end ≤ longest }
    ensures { result.items ≡ take end space.now }
{
    Line::try_from(&space[..end]).unwrap()
}

// The line of a value that can be put into a buffer.
fn line_by<T: Put>(value: T, desks: u8) -> Line
    requires room { T.room ≤ longest }
    requires printable { T.printable desks }
    ensures { result.items ≡ answer_text desks (accepted (T.value value)) }
{
    let mut space = [0; LONGEST];
    let end = value.put(&mut space, 0, desks);
    line_to(&space, end)
}

// The line of a refusal: its number.
fn number_line(n: u8) -> Line
    ensures { (D : ℕ) → result.items ≡ answer_text D (refusal n) }
{
    let mut space = [0; LONGEST];
    let end = put_number(&mut space, 0, n);
    line_to(&space, end)
}

// Of a call that gives nothing: the number alone.
impl Reply for () {
    ghost value = { done_value };

    ghost printable = { λ n. Unit {0} };

    fn line(self, desks: u8) -> Line {
        line_by::<()>(self, desks)
    }
}

// Of local and reset.
impl Reply for Stamped {
    ghost value = { stamped_value };

    ghost printable = { λ n. n ≤ 8 };

    fn line(self, desks: u8) -> Line {
        line_by::<Stamped>(self, desks)
    }
}

// Of receive.
impl Reply for Received {
    ghost value = { received_value };

    ghost printable = { λ n. n ≤ 8 };

    fn line(self, desks: u8) -> Line {
        line_by::<Received>(self, desks)
    }
}

// Of send.
impl Reply for Sent {
    ghost value = { sent_value };

    ghost printable = { λ n. n ≤ 8 };

    fn line(self, desks: u8) -> Line {
        line_by::<Sent>(self, desks)
    }
}

// Of before.
impl Reply for bool {
    ghost value = { says };

    ghost printable = { λ n. Unit {0} };

    fn line(self, desks: u8) -> Line {
        line_by::<bool>(self, desks)
    }
}

// Of compare: the relation in words.
impl Reply for Relation {
    ghost value = { relates };

    ghost printable = { λ n. Unit {0} };

    fn line(self, desks: u8) -> Line {
        line_by::<Relation>(self, desks)
    }
}

// Of picture: yes, or the two desks at odds.
impl Reply for Option<Odds> {
    ghost value = { odds_value };

    ghost printable = { λ n. Unit {0} };

    fn line(self, desks: u8) -> Line {
        line_by::<Option<Odds>>(self, desks)
    }
}

// Of may: yes, or the number that a reset would be answered.
impl Reply for Option<Refusal> {
    ghost value = { reset_value };

    ghost printable = { λ n. Unit {0} };

    fn line(self, desks: u8) -> Line {
        line_by::<Option<Refusal>>(self, desks)
    }
}

// The line of an answer, in a book of so many desks.
pub fn line_of<T: Reply + Drop>(desks: u8, answer: Result<T, Refusal>) -> Line
    requires { number_in answer ≡ 0 → T.printable desks }
    ensures { result.items ≡ answer_text desks (answer_by T.value answer) }
{
    match answer {
        Ok(value) => value.line(desks),
        Err(refusal) => number_line(refusal.number()),
    }
}

#[cfg(test)]
mod tests {
    use super::*;
    use rules::Stamp;

    // Desk 1's stamp in a book of two desks, with the pairs 0.2 and 3.1.
    const STAMP: Stamp = Stamp {
        owner: 1,
        row: [0, 2, 3, 1, 0, 0, 0, 0, 0, 0, 0, 0, 0, 0, 0, 0],
    };

    fn reads(line: Line, text: &[u8]) -> bool {
        line.as_slice() == text
    }

    // A line of each kind of answer, in a book of two desks, as the rules write it.
    #[test]
    fn answers_tell_their_lines(rt: HostRuntime) {
        let local = Stamped {
            stamp: STAMP,
            slot: None,
        };
        let receive = Received {
            stamp: STAMP,
            learnt: 7,
            slot: None,
        };
        let send = Sent {
            place: 9,
            stamp: STAMP,
            slot: Some(31),
        };
        let odds = Odds {
            lower: 2,
            higher: 7,
        };
        assert!(rt; reads(line_of(2, Ok(())), b"000\n"));
        assert!(rt; reads(line_of(2, Ok(local)), b"000 001 000.002 003.001\n"));
        assert!(rt; reads(line_of(2, Ok(receive)), b"000 001 000.002 003.001 007\n"));
        assert!(rt; reads(line_of(2, Ok(send)), b"000 009 001 000.002 003.001 031\n"));
        assert!(rt; reads(line_of(2, Ok(false)), b"000 no\n"));
        assert!(rt; reads(line_of(2, Ok(Relation::Concurrent)), b"000 concurrent\n"));
        assert!(rt; reads(line_of(2, Ok(Some(odds))), b"000 002 007\n"));
        assert!(rt; reads(line_of(2, Ok(None::<Odds>)), b"000 yes\n"));
        assert!(rt; reads(line_of(2, Ok(Some(Refusal::SeatBehind))), b"000 011\n"));
        assert!(rt; reads(line_of(2, Err::<Sent, _>(Refusal::BadSummary)), b"021\n"));
    }
}
