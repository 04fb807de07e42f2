// Whether the stamps of a list of slots, one for each desk, make a picture of all desks: what every way from one of them asks is fetched
// once, then every two are looked at, both ways.

#![tactic(auto)]

ghost use Rattle.std.specs.Prelude.{◌≡◌, true, false, ◌+◌, ◌-◌, ◌≤◌, ◌<◌, length};
ghost use Rattle.tools.specs.Tests.{any};
ghost use Rattle.rules.specs.Setups.{setup_with};
ghost use Rattle.rules.specs.Model;
ghost use Rattle.rules.specs.Model.{no_slot, wrong_owner};
ghost use Rattle.rules.specs.Calls.{on};
ghost use Rattle.rules.specs.Replies.{pictured_says};
ghost use Rattle.book.specs.Layout.{limits_of, setup_of};
ghost use Rattle.book.specs.Sound.{sound};
ghost use Rattle.book.specs.Answers.{answer_to};
ghost use Rattle.book.specs.Numbers.{tables_of};
ghost use Rattle.refusals.specs.First.{list_number};
ghost use Rattle.pictures.specs.Froms.{most_by, from_of, lag_to, beyond, more_to, Table, Ready};
ghost use Rattle.pictures.specs.Pairs.{far, odd, pairs_of, pairs};

use parts::BookBytes;
use rules::{Odds, Refusal, SetupNumbers};

// What all ways from one stamp share: its owner, the owner's phase, how far its own pair lags and the clock there, and the least and the
// largest lag of another stamp's pair that is within reach.
#[derive(Clone, Copy, Default)]
struct From {
    owner: u8,
    own: u8,
    up: u8,
    clock: u8,
    least: u8,
    most: u8,
}

// A list of used slots of a sound book, and what all ways from each of their stamps share.
#[derive(Clone, Copy)]
struct Listed<'a> {
    book: &'a BookBytes,
    slots: &'a [usize],
    froms: [From; 8],
    ghost ready: { Ready book.now slots.now },
    ghost table: { Table book.now slots.now (length slots.now) froms },
}

fn least(up: u8, ahead: usize) -> u8
    requires { (1 ≤ ahead) × (ahead ≤ 255) }
    ensures { result ≡ up + 1 - ahead }
{
    (usize::from(up) + 1).saturating_sub(ahead) as u8
}

// No lag is above 255.
fn most(up: u8, back: usize) -> u8
    requires { (1 ≤ back) × (back ≤ 255) }
    ensures { result ≡ most_by up back }
{
    (usize::from(up) + back - 1).min(255) as u8
}

fn from_of(book: &BookBytes, setup: SetupNumbers, slot: usize) -> From
    requires whole { sound book.now ≡ true }
    requires setup { setup_with setup (limits_of book.now) ≡ setup_of book.now }
    requires used { no_slot (tables_of book.now) slot ≡ false }
    ensures { result ≡ from_of book.now slot }
{
    let owner = asking::owner_of(book, slot);
    let desk = usize::from(owner);
    let e = parts::SHELF + slot;
    let own = parts::phase_at(book, desk, desk);
    let up = ring::lag(own, parts::phase_at(book, e, desk), parts::last_phase(book));
    let clock = parts::clock_at(book, e, desk);
    let least = least(up, setup.ahead);
    let most = most(up, comparing::reach_back(setup, clock == 0));
    From {
        owner,
        own,
        up,
        clock,
        least,
        most,
    }
}

fn froms_of(book: &BookBytes, slots: &[usize]) -> [From; 8]
    requires { Ready book.now slots.now }
    ensures { Table book.now slots.now (length slots.now) result }
{
    let setup = parts::numbers_of(book);
    let mut froms = [From::default(); 8];
    for i in 0..slots.len() {
        froms[i] = from_of(book, setup, slots[i]);
    }
    froms
}

impl From {
    // Whether such a lag of another stamp's pair is out of reach.
    fn out_of_reach(self, lag: u8) -> bool
        ensures { result ≡ beyond self lag }
    {
        (lag < self.least) | (self.most < lag)
    }
}

impl Listed<'_> {
    // How far the pair for the desk of the i-th stamp lags in the k-th.
    fn lag_to(&self, i: usize, k: usize) -> u8
        requires { (i < length self.now.slots.now) × (k < length self.now.slots.now) }
        ensures { result ≡ lag_to self.now.book.now self.now.slots.now i k }
    {
        let desk = usize::from(self.froms[i].owner);
        let phase = parts::phase_at(self.book, parts::SHELF + self.slots[k], desk);
        ring::lag(self.froms[i].own, phase, parts::last_phase(self.book))
    }

    // Whether the k-th stamp, in which that pair has such a lag, knows more of the desk of the i-th. Its clock is fetched only where the
    // lags are equal: that is faster than to ask ring::later_by.
    fn knows_more(&self, i: usize, k: usize, lag: u8) -> bool
        requires places { (i < length self.now.slots.now) × (k < length self.now.slots.now) }
        requires lag_value { lag ≡ lag_to self.now.book.now self.now.slots.now i k }
        ensures { result ≡ more_to self.now.book.now self.now.slots.now i k }
    {
        let up = self.froms[i].up;
        if lag == up {
            let owner = usize::from(self.froms[i].owner);
            return self.froms[i].clock
                < parts::clock_at(self.book, parts::SHELF + self.slots[k], owner);
        }
        lag < up
    }

    // Whether of two stamps either is out of reach from the other, by the lags there and back.
    fn too_far(&self, i: usize, k: usize, there: u8, back: u8) -> bool
        requires places { (i < k) × (k < length self.now.slots.now) }
        requires there_value { there ≡ lag_to self.now.book.now self.now.slots.now i k }
        requires back_value { back ≡ lag_to self.now.book.now self.now.slots.now k i }
        ensures { result ≡ far self.now.book.now self.now.slots.now i k }
    {
        self.froms[i].out_of_reach(there) | self.froms[k].out_of_reach(back)
    }

    // Whether either knows more of the other's desk.
    fn at_odds(&self, i: usize, k: usize, there: u8, back: u8) -> bool
        requires places { (i < k) × (k < length self.now.slots.now) }
        requires there_value { there ≡ lag_to self.now.book.now self.now.slots.now i k }
        requires back_value { back ≡ lag_to self.now.book.now self.now.slots.now k i }
        ensures { result ≡ odd self.now.book.now self.now.slots.now i k }
    {
        self.knows_more(i, k, there) || self.knows_more(k, i, back)
    }

    // The i-th stamp and those after it: OutOfReach, or the lowest desk that it is at odds with. The last one first: the lowest is then the
    // last to be found, and what was found before need not be asked, which is faster.
    fn pairs_of(&self, i: usize) -> Result<Option<usize>, Refusal>
        requires { i < length self.now.slots.now }
        ensures { result ≡ pairs_of self.now.book.now self.now.slots.now i }
    {
        let mut odd = None;
        for k in (i + 1..self.slots.len()).rev() {
            let there = self.lag_to(i, k);
            let back = self.lag_to(k, i);
            if self.too_far(i, k, there, back) {
                return Err(Refusal::OutOfReach);
            }
            if self.at_odds(i, k, there, back) {
                odd = Some(k);
            }
        }
        Ok(odd)
    }

    // Every two stamps, likewise.
    fn pairs(&self) -> Result<Option<Odds>, Refusal>
        ensures { result ≡ pairs self.now.book.now self.now.slots.now }
    {
        let mut found = None;
        for i in (0..self.slots.len()).rev() {
            if let Some(k) = self.pairs_of(i)? {
                found = Some(Odds {
                    lower: i as u8,
                    higher: k as u8,
                });
            }
        }
        Ok(found)
    }

    // Whether a stamp is another desk's than the one that its place in the list is for.
    fn wrong_owner(&self) -> bool
        ensures { result ≡ any (length self.now.slots.now) (wrong_owner (tables_of self.now.book.now) self.now.slots.now) }
    {
        for i in 0..self.slots.len() {
            if usize::from(self.froms[i].owner) != i {
                return true;
            }
        }
        false
    }
}

// Picture, of D used slots: OutOfReach, WrongOwner, yes, or two desks at odds.
pub fn pictured(book: &BookBytes, slots: &[usize]) -> Result<Option<Odds>, Refusal>
    requires { list_number book.now slots.now ≡ 0 }
    ensures { pictured_says result ≡ answer_to book.now (on (Model.picture slots.now)) }
{
    let froms = froms_of(book, slots);
    let listed = Listed { book, slots, froms };
    let found = listed.pairs()?;
    if listed.wrong_owner() {
        return Err(Refusal::WrongOwner);
    }
    Ok(found)
}
