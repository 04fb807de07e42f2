// Stamp records: twenty bytes that tell a stamp, read and written; before, compare and newest of two of them.

#![tactic(auto)]

ghost use Rattle.std.specs.Prelude.{◌≡◌, true, ℕ, ◌<◌, List, ltb, length};
ghost use Rattle.tools.specs.Tests.{pick};
ghost use Rattle.tools.specs.Lists.{byte};
ghost use Rattle.rules.specs.Setups.{setup_with, setup_in};
ghost use Rattle.rules.specs.Labels.{owner_in};
ghost use Rattle.rules.specs.Replies.{row_bytes, row_of, told_says, compared_says};
ghost use Rattle.book.specs.Layout.{record_size, seats};
ghost use Rattle.book.specs.Answers.{before_of, compare_of};
ghost use Rattle.book.specs.Stamps.{write_stamp, label_of, pair_reads, read_stamp};
ghost use Rattle.labels.specs.Counts;
ghost use Rattle.labels.specs.Counts.{count_row, Counts, row_reads, head_reads};
ghost use Rattle.labels.specs.Records.{read_as, read_says, row_beside, newest_of, HandedBack};
ghost use Rattle.labels.specs.Asked.{owner_read, Both, Between, WayRead, Asked};

use comparing::Way;
use ring::Gap;
use rules::{GivenSetup, Refusal, Relation, SetupNumbers, Stamp};

// The mark of a stamp record.
const MARK0: u8 = 0x53;

const MARK1: u8 = 0x54;

// What reading a record answers: the owner or the refusal, and beside it the row, which is blank where the record is refused.
#[derive(Clone, Copy)]
pub struct Reading {
    pub who: Result<u8, Refusal>,
    pub row: [u8; 16],
}

// The bytes of a record.
type RecordBytes = [u8; parts::RECORD_BYTES];

// So many, as far as the numbers of a byte go.
#[tactic(auto, unfolding(crate::specs::Counts::capped))]
fn capped(count: usize) -> u16
    ensures { result ≡ Counts.capped count }
{
    count.min(256) as u16
}

// The limit of a desk; 0 where the list ends before it.
fn limit_at(limits: &[usize], desk: usize) -> usize
    ensures { result ≡ byte limits.now desk }
{
    limits.get(desk).copied().unwrap_or(0)
}

// How many desks there are, as far as a row has room for them.
fn seated(desks: usize) -> usize
    ensures { result ≡ pick (ltb desks seats) desks seats }
{
    desks.min(parts::SEATS)
}

// How many phases and clocks each desk has, for the sixteen bytes of a row; 0 alone where there is no desk. Only the desks that are there
// are gone through, which takes fewer instructions than a test of each of eight.
fn counts_of(setup: GivenSetup<'_>) -> [u16; 16]
    ensures { Counts (setup_in setup.entry) result }
{
    let phases = capped(setup.numbers.phases);
    let mut counts = [1u16; 16];
    for j in 0..seated(setup.numbers.desks) {
        counts[parts::phase_spot(j)] = phases;
        counts[parts::clock_spot(j)] = capped(limit_at(setup.limits, j));
    }
    counts
}

// A setup, and how many phases and clocks each desk has under it.
#[derive(Clone, Copy)]
struct Counted<'a> {
    setup: GivenSetup<'a>,
    counts: [u16; 16],
    ghost counted: { Counts (setup_in setup) counts },
}

impl Counted<'_> {
    fn pair_reads(&self, record: &RecordBytes, j: usize) -> bool
        requires { j < seats }
        ensures { result ≡ pair_reads (setup_in self.now.setup) j ((label_of record.now).row j) }
    {
        let phase = parts::phase_spot(j);
        let clock = parts::clock_spot(j);
        (u16::from(record[parts::ROW + phase]) < self.counts[phase])
            & (u16::from(record[parts::ROW + clock]) < self.counts[clock])
    }

    // No pair ends the loop early: so all eight are compared at once.
    fn row_reads(&self, record: &RecordBytes) -> bool
        ensures { result ≡ row_reads (setup_in self.now.setup) record.now }
    {
        let mut ok = true;
        for j in 0..parts::SEATS {
            ok = ok & self.pair_reads(record, j);
        }
        ok
    }

    #[tactic(auto, unfolding(crate::specs::Counts::head_reads, tools::specs::Tests::all_of))]
    fn head_reads(&self, record: &RecordBytes) -> bool
        ensures { result ≡ head_reads self.now.setup.numbers.desks record.now }
    {
        let desks = self.setup.numbers.desks;
        (record[0] == MARK0)
            & ((record[1] == MARK1)
                & ((usize::from(record[parts::TAG_A]) < desks)
                    & (usize::from(record[parts::TAG_B]) == desks)))
    }

    // The owner of a record, or its refusal. Put in place at each call, which takes fewer instructions than a call of it.
    #[inline(always)]
    fn who_of(&self, bytes: &[u8]) -> Result<u8, Refusal>
        ensures { result ≡ owner_read (read_stamp (setup_in self.now.setup) bytes.now) }
    {
        let Some(record) = bytes.as_array::<{ parts::RECORD_BYTES }>() else {
            return Err(Refusal::BadStamp);
        };
        if self.row_reads(record) && self.head_reads(record) {
            return Ok(record[parts::TAG_A]);
        }
        Err(Refusal::BadStamp)
    }
}

// A record is read into a stamp or refused.
pub fn read(setup: GivenSetup<'_>, bytes: &[u8]) -> Reading
    ensures result_value { read_says result ≡ read_as (read_stamp (setup_in setup.entry) bytes.now) }
    ensures row_beside { row_beside result.who result.row }
{
    let counted = Counted {
        setup,
        counts: counts_of(setup),
    };
    let who = counted.who_of(bytes);
    let mut row = [0u8; 16];
    let Ok(_) = who else {
        return Reading { who, row };
    };
    row.copy_from_slice(&bytes[parts::ROW..]);
    Reading { who, row }
}

// The record of a stamp: mark, owner, D, row.
pub fn record_of(desks: u8, stamp: Stamp) -> [u8; 20]
    ensures { result ≡ write_stamp desks (record { owner = stamp.owner; row = row_of stamp.row }) }
{
    let mut bytes = [0u8; 20];
    bytes[0] = MARK0;
    bytes[1] = MARK1;
    bytes[parts::TAG_A] = stamp.owner;
    bytes[parts::TAG_B] = desks;
    bytes[parts::ROW..].copy_from_slice(&stamp.row);
    bytes
}

// The way from the record of an owner to another, by their phases alone: r is (phase in the second minus phase in the first)
// modulo P, and d is r if r <= n-1, else r-P.
fn way(setup: SetupNumbers, owner: u8, first: &[u8], second: &[u8]) -> Way
    requires { Between setup first.now second.now owner }
    ensures { (l : List ℕ) → Both (setup_with setup l) first.now second.now
        → owner_in (read_stamp (setup_with setup l) first.now) ≡ owner
        → WayRead (setup_with setup l) first.now second.now owner result }
{
    let desk = usize::from(owner);
    let phase = parts::ROW + parts::phase_spot(desk);
    let clock = parts::ROW + parts::clock_spot(desk);
    let from = first[clock];
    let to = second[clock];
    let last = (setup.phases - 1) as u8;
    let n = setup.ahead as u8;
    let first_phase = first[phase];
    let second_phase = second[phase];
    let r = ring::lag(second_phase, first_phase, last);
    if r < n {
        let gap = Gap { up: r, down: 0 };
        return Way { gap, from, to };
    }
    let gap = Gap {
        up: 0,
        down: last - r + 1,
    };
    Way { gap, from, to }
}

// The owners of two records that can be asked. The setup is lent, so that no call copies it.
fn owners_of(setup: &GivenSetup<'_>, first: &[u8], second: &[u8]) -> Result<(u8, u8), Refusal>
    ensures { Asked (setup_in setup.now) first.now second.now result }
{
    if !setups::permits(*setup) {
        return Err(Refusal::BadSetup);
    }
    let counted = Counted {
        setup: *setup,
        counts: counts_of(*setup),
    };
    let owner = counted.who_of(first)?;
    let other = counted.who_of(second)?;
    Ok((owner, other))
}

// Before, off the book.
pub fn before(setup: GivenSetup<'_>, first: &[u8], second: &[u8]) -> Result<bool, Refusal>
    ensures { told_says result ≡ before_of (setup_in setup.entry) first.now second.now }
{
    let (owner, other) = owners_of(&setup, first, second)?;
    let there = way(setup.numbers, owner, first, second);
    comparing::told(setup.numbers, owner, other, there)
}

// Compare, off the book.
pub fn compare(setup: GivenSetup<'_>, first: &[u8], second: &[u8]) -> Result<Relation, Refusal>
    ensures { compared_says result ≡ compare_of (setup_in setup.entry) first.now second.now }
{
    let (owner, other) = owners_of(&setup, first, second)?;
    let there = way(setup.numbers, owner, first, second);
    let back = way(setup.numbers, other, second, first);
    comparing::compared(setup.numbers, owner, other, there, back)
}

// Newest: of two lent records the one that is after the other, the first if they are the same, else an empty part of the first.
pub fn newest<'a>(setup: GivenSetup<'_>, first: &'a [u8], second: &'a [u8]) -> &'a [u8]
    ensures { HandedBack (newest_of (setup_in setup.entry) first.now second.now)
        first.entry second.entry result }
{
    let Ok(relation) = compare(setup, first, second) else {
        return &first[0..0];
    };
    match relation {
        Relation::After => first,
        Relation::Same => first,
        Relation::Before => second,
        Relation::Concurrent => &first[0..0],
        Relation::Crossed => &first[0..0],
    }
}
