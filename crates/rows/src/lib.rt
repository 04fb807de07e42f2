// A row of a book as an array, and a desk's new row after each event: functions of the bytes that change none.

#![tactic(auto)]

ghost use Rattle.std.specs.Prelude.{◌≡◌, ◌<◌};
ghost use Rattle.rules.specs.Model.{tick};
ghost use Rattle.rules.specs.Replies.{row_bytes};
ghost use Rattle.book.specs.Layout.{records, seats, places, row_at};
ghost use Rattle.tools.specs.Tests.{count};
ghost use Rattle.rows.specs.Rows.{AtDesk, Grows, later_row, learns_at, with_pair};
ghost use Rattle.rows.specs.Rows.{grown_row, turned_row, merged_row, learnt_from};

use parts::BookBytes;
use ring::Pair;

// A desk of a sound book.
#[derive(Clone, Copy)]
pub struct Desk<'a> {
    pub book: &'a BookBytes,
    pub number: usize,
    ghost here: { AtDesk book.now number },
}

// A row merged from two, and how many pairs of other desks than the receiver changed.
#[derive(Clone, Copy)]
pub struct Merged {
    pub row: [u8; 16],
    pub learnt: u8,
}

// The row of a record.
#[tactic(auto, using(crate::proofs::Rows::row_cut))]
pub fn row_array(book: &BookBytes, k: usize) -> [u8; 16]
    requires { k < records }
    ensures { result ≡ row_bytes (row_at book.now k) }
{
    let at = parts::spot(k, parts::ROW);
    let mut row = [0u8; parts::ROW_BYTES];
    row.copy_from_slice(&book[at..at + parts::ROW_BYTES]);
    row
}

fn with_pair(row: [u8; 16], desk: usize, pair: Pair) -> [u8; 16]
    requires { desk < seats }
    ensures { result ≡ with_pair row desk pair }
{
    let mut next = row;
    next[parts::phase_spot(desk)] = pair.phase;
    next[parts::clock_spot(desk)] = pair.clock;
    next
}

impl Desk<'_> {
    // The desk's own pair comes from its own seat, whatever the row says of it. That its clock may grow is asked here and by two callers: a
    // type of such desks would be longer than these clauses.
    fn ticked(self, row: [u8; 16]) -> [u8; 16]
        requires { Grows self.book.now self.number }
        ensures { result ≡ with_pair row self.entry.number (tick (row_at self.entry.book.now self.entry.number self.entry.number)) }
    {
        let own = parts::pair_at(self.book, self.number, self.number);
        with_pair(
            row,
            self.number,
            Pair {
                phase: own.phase,
                clock: own.clock + 1,
            },
        )
    }

    // Its row after local or send: its own clock grows by 1.
    #[tactic(auto, using(crate::proofs::Rows::grown_bytes))]
    pub fn grown_row(self) -> [u8; 16]
        requires { Grows self.book.now self.number }
        ensures { result ≡ row_bytes (grown_row self.entry.book.now self.entry.number) }
    {
        self.ticked(row_array(self.book, self.number))
    }

    // Its row after reset: its own phase grows by 1 modulo P and its own clock becomes 0.
    #[tactic(auto, using(book::proofs::Below::phase_below, crate::proofs::Rows::turned_bytes))]
    pub fn turned_row(self) -> [u8; 16]
        ensures { result ≡ row_bytes (turned_row self.entry.book.now self.entry.number) }
    {
        let own = parts::phase_at(self.book, self.number, self.number);
        with_pair(
            row_array(self.book, self.number),
            self.number,
            Pair {
                phase: ring::next(own, parts::last_phase(self.book)),
                clock: 0,
            },
        )
    }

    // The row of its seat, merged with a record that was mailed. The own pair is not counted. Each desk's own phase is fetched once:
    // both lags are behind it.
    fn later_row(self, mailed: usize) -> Merged
        requires { mailed < records }
        ensures { (result.row ≡ row_bytes (later_row self.entry.book.now self.entry.number mailed))
            × (result.learnt ≡ count seats (learns_at self.entry.book.now self.entry.number mailed)) }
    {
        let last = parts::last_phase(self.book);
        let mut row = [0u8; 16];
        let mut learnt: u8 = 0;
        for k in 0..parts::SEATS {
            let own = parts::phase_at(self.book, k, k);
            let held = parts::pair_at(self.book, self.number, k);
            let later = ring::later(own, last, held, parts::pair_at(self.book, mailed, k));
            let taken = later.unwrap_or(held);
            row[parts::phase_spot(k)] = taken.phase;
            row[parts::clock_spot(k)] = taken.clock;
            learnt += u8::from((k != self.number) & later.is_some());
        }
        Merged { row, learnt }
    }

    // Its row after receive from a mail place: its own clock grows by 1; for every other desk, the later of the two pairs. And of how
    // many desks it learns.
    #[tactic(auto, using(crate::proofs::Rows::merged_bytes, crate::proofs::Rows::learnt_counts))]
    pub fn merged_row(self, place: usize) -> Merged
        requires grows { Grows self.book.now self.number }
        requires place_lt_places { place < places }
        ensures { (result.row ≡ row_bytes (merged_row self.entry.book.now self.entry.number place))
            × (result.learnt ≡ learnt_from self.entry.book.now self.entry.number place) }
    {
        let merged = self.later_row(parts::MAIL + place);
        Merged {
            row: self.ticked(merged.row),
            learnt: merged.learnt,
        }
    }
}
