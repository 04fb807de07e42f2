// Whether a setup is permitted: its numbers, and its desks' limits.

#![tactic(auto)]

ghost use Rattle.std.specs.Prelude.{◌≡◌, ◌&&◌, [], ◌≤◌};
ghost use Rattle.tools.specs.Tests;
ghost use Rattle.rules.specs.Setups;
ghost use Rattle.setups.specs.Bounds;

use rules::{GivenSetup, SetupNumbers};

// Whether the number of desks is in its range.
#[tactic(auto, unfolding(tools::specs::Tests::within, tools::specs::Tests::all_of))]
fn desks_ok(desks: usize) -> bool
    ensures { result ≡ Tests.within 2 8 desks }
{
    (2..=8).contains(&desks)
}

// Whether a reach, back or ahead, is in its range.
#[tactic(auto, unfolding(tools::specs::Tests::within, tools::specs::Tests::all_of))]
fn reach_ok(reach: usize) -> bool
    ensures { result ≡ Tests.within 1 127 reach }
{
    (1..=127).contains(&reach)
}

// The bounds that no other test gives: P above A and above 2M keeps these two, and is 3 or more by them. Bracketed so, may takes fewer
// instructions.
#[tactic(auto, unfolding(crate::specs::Bounds::bounded, tools::specs::Tests::all_of))]
fn bounded(s: SetupNumbers) -> bool
    ensures { result ≡ Bounds.bounded (Setups.setup_with s []) }
{
    desks_ok(s.desks)
        & ((s.phases <= 256)
            & ((1 <= s.seat_lag)
                & ((s.seat_lag <= s.shelf_lag)
                    & ((s.shelf_lag < s.phases) & (reach_ok(s.back) & reach_ok(s.ahead))))))
}

#[tactic(auto, unfolding(crate::specs::Bounds::on_the_ring, tools::specs::Tests::all_of))]
fn on_the_ring(s: SetupNumbers) -> bool
    requires { (s.seat_lag ≤ 255) × (s.back ≤ 127) × (s.ahead ≤ 127) }
    ensures { result ≡ Bounds.on_the_ring (Setups.setup_with s []) }
{
    (2 * s.seat_lag + 1 <= s.phases) & (s.back + s.ahead <= s.phases)
}

// Whether the six numbers are in range and related as they have to be. What the limits are does not count.
pub fn numbers_ok(s: SetupNumbers) -> bool
    ensures { result ≡ (Setups.in_range (Setups.setup_with s []) && Setups.related (Setups.setup_with s [])) }
{
    bounded(s) && on_the_ring(s)
}

// Whether a limit is in its range.
#[tactic(auto, unfolding(rules::specs::Setups::limit_ok, tools::specs::Tests::within, tools::specs::Tests::all_of))]
pub fn limit_ok(limit: usize) -> bool
    ensures { result ≡ Setups.limit_ok limit }
{
    (2..=255).contains(&limit)
}

// Whether there are as many limits as desks, each in its range. They are counted first, so that no long list is gone through.
fn limited(setup: GivenSetup<'_>) -> bool
    ensures { result ≡ Setups.limited (Setups.setup_in setup.entry) }
{
    setup.limits.len() == setup.numbers.desks && setup.limits.iter().all(|limit| limit_ok(*limit))
}

// Whether a setup is permitted.
pub fn permits(setup: GivenSetup<'_>) -> bool
    ensures { result ≡ Setups.permits (Setups.setup_in setup.entry) }
{
    numbers_ok(setup.numbers) && limited(setup)
}
