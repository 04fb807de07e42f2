// Whether the contents of one record of a book are in order, whatever its mark.

#![tactic(auto)]

ghost use Rattle.std.specs.Prelude.{◌≡◌, true, [], ◌∷◌, ◌+◌, ◌<◌, ◌≤◌, leb, ltb};
ghost use Rattle.ring.specs.Phases.{lag_of};
ghost use Rattle.tools.specs.Tests.{pick, all_of, all_below};
ghost use Rattle.book.specs.Layout.{records, shelf_from, mail_from, seats, fields};
ghost use Rattle.book.specs.Sound.{column_zero, row_ok, row_zero, seat_limit, seat_rest, seat_near, record_ok};
ghost use Rattle.contents.specs.Checks.{Held, Ready, Used};

use parts::BookBytes;

// What the pairs of each desk are held to: the last phase, its own phase, its last clock.
#[derive(Clone, Copy)]
pub struct Columns {
    pub last: [u8; 8],
    pub own: [u8; 8],
    pub clock: [u8; 8],
}

// A book that has a limit in each seat, and what the pairs of its desks are held to, lent: a copy for each record would be waited for.
#[derive(Clone, Copy)]
pub struct Checked<'a> {
    pub book: &'a BookBytes,
    pub columns: &'a Columns,
    ghost ready: { Ready book.now columns.now },
}

// A number of a desk; where there is no such desk, the one that stands for it.
fn of_desk(desks: usize, desk: usize, number: u8, none: u8) -> u8
    ensures { result ≡ pick (ltb desk desks) number none }
{
    if desk < desks { number } else { none }
}

// Where there is no desk 0 alone is in range, and does not lag. They are filled where they lie: a copy is dearer.
pub fn fill_columns(book: &BookBytes, columns: &mut Columns)
    requires { all_below seats (seat_limit (fields book.now)) ≡ true }
    ensures { Held book.now seats columns.new }
{
    let d = parts::desks_of(book);
    let last = parts::last_phase(book);
    for j in 0..parts::SEATS {
        columns.last[j] = of_desk(d, j, last, 0);
        columns.own[j] = of_desk(d, j, parts::phase_at(book, j, j), 0);
        columns.clock[j] = of_desk(d, j, parts::tag_b(book, j), 1) - 1;
    }
}

// Whether a pair is in range and lags no more than the bound, which may take two bytes. No branch, whatever the bytes.
fn pair_ok(own: u8, last: u8, top: u8, bound: u16, phase: u8, clock: u8) -> bool
    ensures { result ≡ all_of (ltb phase (last + 1) ∷ ltb clock (top + 1) ∷ leb (lag_of (last + 1) own phase) bound ∷ []) }
{
    (phase <= last) & ((clock <= top) & (u16::from(ring::lag(own, phase, last)) <= bound))
}

#[tactic(auto, unfolding(book::specs::Sound::column_zero, tools::specs::Tests::all_of))]
fn column_zero(book: &BookBytes, k: usize, j: usize) -> bool
    requires { (k < records) × (j < seats) }
    ensures { result ≡ column_zero (fields book.now) k j }
{
    (parts::phase_at(book, k, j) == 0) & (parts::clock_at(book, k, j) == 0)
}

#[tactic(auto, unfolding(book::specs::Sound::row_zero, tools::specs::Tests::all_below))]
fn row_zero(book: &BookBytes, k: usize) -> bool
    requires { k < records }
    ensures { result ≡ row_zero (fields book.now) k }
{
    let mut ok = true;
    for j in 0..parts::SEATS {
        ok = ok & column_zero(book, k, j);
    }
    ok
}

// A limit in its range; none where there is no desk.
#[tactic(auto, unfolding(book::specs::Sound::seat_limit))]
fn seat_limit(book: &BookBytes, k: usize) -> bool
    requires { k < records }
    ensures { result ≡ seat_limit (fields book.now) k }
{
    let limit = parts::tag_b(book, k);
    if k < parts::desks_of(book) {
        setups::limit_ok(usize::from(limit))
    } else {
        limit == parts::FILLER
    }
}

// Whether every seat has its limit. It is asked before the rows are, since a limit of 0 has no last clock to hold them to.
#[tactic(auto, unfolding(tools::specs::Tests::all_below))]
pub fn limits_ok(book: &BookBytes) -> bool
    ensures { result ≡ all_below seats (seat_limit (fields book.now)) }
{
    let mut ok = true;
    for k in 0..parts::SEATS {
        ok = ok & seat_limit(book, k);
    }
    ok
}

#[tactic(auto, unfolding(book::specs::Sound::seat_rest))]
fn seat_rest(book: &BookBytes, k: usize) -> bool
    requires { k < records }
    ensures { result ≡ seat_rest (fields book.now) k }
{
    if parts::tag_a(book, k) == parts::FREE {
        row_zero(book, k)
    } else {
        k < parts::desks_of(book)
    }
}

// A place or slot that is free. Its second tag is tested apart, so that its row is one compare of sixteen bytes.
#[tactic(auto, unfolding(book::specs::Sound::record_ok, book::specs::Sound::mail_ok, book::specs::Sound::slot_ok, tools::specs::Tests::all_of))]
pub fn free_ok(book: &BookBytes, k: usize) -> bool
    requires { (mail_from ≤ k) × (k < records) × (((fields book.now).at k).tag_a ≡ 0) }
    ensures { result ≡ record_ok lag_of (fields book.now) k }
{
    if parts::tag_b(book, k) != parts::FILLER {
        return false;
    }
    row_zero(book, k)
}

impl Checked<'_> {
    // No pair ends the loop early: so all eight are compared at once.
    #[tactic(auto, unfolding(book::specs::Sound::row_ok, tools::specs::Tests::all_below))]
    fn row_ok(self, bound: u16, k: usize) -> bool
        requires { k < records }
        ensures { result ≡ row_ok lag_of (fields self.entry.book.now) bound k }
    {
        let mut ok = true;
        for j in 0..parts::SEATS {
            let phase = parts::phase_at(self.book, k, j);
            let clock = parts::clock_at(self.book, k, j);
            ok = ok
                & pair_ok(
                    self.columns.own[j],
                    self.columns.last[j],
                    self.columns.clock[j],
                    bound,
                    phase,
                    clock,
                );
        }
        ok
    }

    #[tactic(auto, unfolding(book::specs::Sound::seat_near))]
    fn seat_near(self, k: usize) -> bool
        requires { k < records }
        ensures { result ≡ seat_near lag_of (fields self.entry.book.now) k }
    {
        if k < parts::desks_of(self.book) {
            self.row_ok(u16::from(parts::seat_lag_of(self.book)), k)
        } else {
            true
        }
    }

    // A seat that has its limit.
    #[tactic(auto, unfolding(book::specs::Sound::record_ok, book::specs::Sound::seat_ok, tools::specs::Tests::all_of))]
    pub fn seat_ok(self, k: usize) -> bool
        requires { k < seats }
        ensures { result ≡ record_ok lag_of (fields self.entry.book.now) k }
    {
        (parts::tag_a(self.book, k) <= parts::STARTED)
            & (seat_rest(self.book, k) & self.seat_near(k))
    }

    // Mail that waits.
    #[tactic(auto, unfolding(book::specs::Sound::record_ok, book::specs::Sound::mail_ok, tools::specs::Tests::all_of))]
    pub fn mail_ok(self, k: usize) -> bool
        requires { (mail_from ≤ k) × (k < shelf_from) × Used self.book.now k }
        ensures { result ≡ record_ok lag_of (fields self.entry.book.now) k }
    {
        let a = parts::tag_a(self.book, k);
        let b = parts::tag_b(self.book, k);
        let d = parts::desks_of(self.book);
        (usize::from(a) <= d)
            & ((1 <= b)
                & ((usize::from(b) <= d)
                    & ((a != b) & self.row_ok(2 * u16::from(parts::seat_lag_of(self.book)), k))))
    }

    // A stamp on the shelf.
    #[tactic(auto, unfolding(book::specs::Sound::record_ok, book::specs::Sound::slot_ok, tools::specs::Tests::all_of))]
    pub fn slot_ok(self, k: usize) -> bool
        requires { (shelf_from ≤ k) × (k < records) × Used self.book.now k }
        ensures { result ≡ record_ok lag_of (fields self.entry.book.now) k }
    {
        (parts::tag_b(self.book, k) == parts::FILLER)
            & ((usize::from(parts::tag_a(self.book, k)) <= parts::desks_of(self.book))
                & self.row_ok(u16::from(parts::shelf_lag_of(self.book)), k))
    }
}
