// The comparison of two stamps over plain numbers, the same on the book and off it, and whatever the limits of the setup.

#![tactic(auto)]

ghost use Rattle.std.specs.Prelude.{◌≡◌, List, ℕ, ◌≤◌};
ghost use Rattle.std.proofs.Math.Option.{Option};
ghost use Rattle.ring.specs.Phases;
ghost use Rattle.rules.specs.Setups.{setup_with};
ghost use Rattle.rules.specs.Model.{Row, reach_back, near, is_out, same_by, is_before};
ghost use Rattle.rules.specs.Model;
ghost use Rattle.rules.specs.Replies.{told_says, compared_says};
ghost use Rattle.comparing.specs.Ways.{Clocked, WayOf};
ghost use Rattle.comparing.specs.Answers.{before_by, compare_by};

use ring::Gap;
use rules::{Refusal, Relation, SetupNumbers};

// One way of a comparison, from the stamp of an owner to the other stamp: the difference d at the owner's desk, and the clocks there.
#[derive(Clone, Copy)]
pub struct Way {
    pub gap: Gap,
    pub from: u8,
    pub to: u8,
}

// A difference within reach is above minus this: m, and m+1 from a reset.
#[tactic(auto, unfolding(rules::specs::Model::reach_back))]
pub fn reach_back(setup: SetupNumbers, reset: bool) -> usize
    requires { setup.back ≤ 255 }
    ensures { (l : List ℕ) → result ≡ reach_back (setup_with setup l) reset }
{
    if reset {
        return setup.back + 1;
    }
    setup.back
}

// Whether a question is out of reach: d does not lie from -(m-1) to n-1, or from -m where the owner's stamp is a reset's, whose clock is 0.
fn out_of_reach(setup: SetupNumbers, way: Way) -> bool
    requires { (setup.back ≤ 255) × (setup.ahead ≤ 255) }
    ensures { (l : List ℕ) → result ≡ is_out (near (setup_with setup l) way.from way.gap) }
{
    let up = usize::from(way.gap.up);
    let down = usize::from(way.gap.down);
    let back = reach_back(setup, way.from == 0);
    !((up < down + setup.ahead) & (down < up + back))
}

// Whether d is 0 and the clocks are equal.
fn same_by(way: Way) -> bool
    ensures { result ≡ same_by way.gap way.from way.to }
{
    (way.gap.down == way.gap.up) & (way.from == way.to)
}

// Whether the owner's stamp is before the other's, by the way there.
fn is_before(owner: u8, other: u8, there: Way) -> bool
    ensures { (e f : Row) → Clocked there owner e f → result ≡ is_before there.gap owner other e f }
{
    ring::later_by(there.gap, there.from, there.to) | ((owner != other) & same_by(there))
}

// How the owner's stamp stands to the other's, which asks both ways: there and back.
fn relation(owner: u8, other: u8, there: Way, back: Way) -> Relation
    ensures { (e f : Row) → Clocked there owner e f → Clocked back other f e
        → result ≡ Model.relation there.gap back.gap owner other e f }
{
    if (owner == other) & same_by(there) {
        return Relation::Same;
    }
    let before = is_before(owner, other, there);
    let after = is_before(other, owner, back);
    // A match on both takes more instructions.
    if before {
        if after {
            return Relation::Crossed;
        }
        return Relation::Before;
    }
    if after {
        return Relation::After;
    }
    Relation::Concurrent
}

// What before answers where both stamps are there: it needs the way there within reach.
pub fn told(setup: SetupNumbers, owner: u8, other: u8, there: Way) -> Result<bool, Refusal>
    requires { (setup.back ≤ 255) × (setup.ahead ≤ 255) }
    ensures { (l : List ℕ) (g : Option Phases.Gap) (e f : Row) → WayOf (setup_with setup l) g owner e f there
        → told_says result ≡ before_by g owner other e f }
{
    if out_of_reach(setup, there) {
        return Err(Refusal::OutOfReach);
    }
    Ok(is_before(owner, other, there))
}

// What compare answers where both stamps are there: it needs both ways within reach.
pub fn compared(
    setup: SetupNumbers,
    owner: u8,
    other: u8,
    there: Way,
    back: Way,
) -> Result<Relation, Refusal>
    requires { (setup.back ≤ 255) × (setup.ahead ≤ 255) }
    ensures { (l : List ℕ) (g h : Option Phases.Gap) (e f : Row) → WayOf (setup_with setup l) g owner e f there
        → WayOf (setup_with setup l) h other f e back
        → compared_says result ≡ compare_by g h owner other e f }
{
    if out_of_reach(setup, there) | out_of_reach(setup, back) {
        return Err(Refusal::OutOfReach);
    }
    Ok(relation(owner, other, there, back))
}
