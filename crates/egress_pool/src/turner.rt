//! The turner of a pool: the weights of its entrants, and the place of the last pick in their rotation.
//!
//! A place is a round and an entrant. The entrants of a round are those whose weight is at least its number, so that the
//! rounds get smaller: what has no turn in one has none in any later. A pick therefore looks at the rest of the last
//! pick's round, at the next round, and at the first, and at no other.
ghost use Rattle.std.specs.Prelude.{◌≡◌, ◌↔◌, ◌<◌, ◌≤◌, IfOk, IfSome, IsNone, false, true, length, option_map, find, slice_index_or};
ghost use Rattle.std.specs.Option.{option_or};
ghost use Rattle.policy_core.specs.Rotation.{weights_of, pick, rotation_of, is_eligible};
ghost use Rattle.egress_pool.specs.Turner.{Turns, place_of, next_place, NoneEligible, IsTurn, turns_behind};

use kumo_base::Memory;
use policy_core::Pool;
use std::alloc::Global;
use std::marker::Model;

/// A turn: a round, counted from 1, and an entrant, counted from 0.
#[derive(Clone, Copy)]
struct Place {
    round: u64,
    entrant: usize,
}

/// A pool's rotation and the place of the last pick in it.
#[derive(Drop)]
pub struct Turner {
    weights: Vec<u32>,
    last: Option<Place>,
}

impl Model for Turner {
    ghost Value = { Turns };

    ghost view = { λ t. record { weights = t.weights.items; last = option_map place_of t.last } };

    ghost invariant = { λ t. IfSome t.last (IsTurn t.weights.items) };
}

impl Turner {
    /// The turner of a pool before its first pick.
    pub fn new(alloc: Global, pool: &Pool) -> Result<Turner, Memory>
        ensures { IfOk result (λ turner. turner ≡ record { weights = weights_of pool.now; last = None }) }
    {
        let mut weights = Vec::new(alloc);
        for entrant in pool.entrants.as_slice() {
            weights.push(entrant.weight)?;
        }
        Ok(Turner {
            weights,
            last: None,
        })
    }

    /// How many entrants the pool has.
    pub fn entrant_count(&self) -> usize
        ensures { result ≡ length self.now.weights }
    {
        self.weights.len()
    }

    /// The number of the entrant whose turn is next, of those that are eligible, and moves there. `eligible` says it of
    /// each entrant, in entry order. Where no entrant with a weight above 0 is eligible it is `None`, and the turner stays
    /// where it was.
    #[tactic(auto, using(crate::proofs::Rotations::no_pick, crate::proofs::Rotations::none_to_pick))]
    pub fn pick(&mut self, eligible: &[bool]) -> Option<usize>
        requires { length eligible.now ≡ length self.old.weights }
        ensures picked { result ≡ option_map (λ place. place.entrant) (next_place self.old eligible.now) }
        ensures none { IsNone result ↔ NoneEligible self.old.weights eligible.now }
        ensures within { IfSome result (λ entrant. entrant < length eligible.now) }
        ensures eligible { IfSome result (λ entrant. slice_index_or eligible.now entrant false ≡ true) }
        ensures place { self.new.last ≡ option_or (next_place self.old eligible.now) self.old.last }
        ensures pool { self.new.weights ≡ self.old.weights }
    {
        let place = next_turn(&self.weights, eligible, self.last)?;
        self.last = Some(place);
        Some(place.entrant)
    }
}

/// The first turn of an eligible entrant behind the last pick's, cyclically, or from the front where there was none.
#[tactic(auto, using(crate::proofs::Rotations::pick_first))]
fn next_turn(weights: &[u32], eligible: &[bool], last: Option<Place>) -> Option<Place>
    requires lengths { length eligible.now ≡ length weights.now }
    requires turn { IfSome last (IsTurn weights.now) }
    ensures next { option_map place_of result ≡ pick (rotation_of weights.now) eligible.now (option_map place_of last) }
    ensures turn { IfSome result (IsTurn weights.now) }
    ensures eligible { IfSome result (λ place. slice_index_or eligible.now place.entrant false ≡ true) }
{
    match last {
        Some(place) => turn_behind(weights, eligible, place),
        None => first_in_round(weights, eligible, 1, 0),
    }
}

/// The first turn of an eligible entrant behind a place, cyclically.
#[tactic(auto, using(crate::proofs::Rotations::pick_behind))]
fn turn_behind(weights: &[u32], eligible: &[bool], last: Place) -> Option<Place>
    requires lengths { length eligible.now ≡ length weights.now }
    requires turn { IsTurn weights.now last }
    ensures next { option_map place_of result ≡ pick (rotation_of weights.now) eligible.now (Some (place_of last)) }
    ensures turn { IfSome result (IsTurn weights.now) }
    ensures eligible { IfSome result (λ place. slice_index_or eligible.now place.entrant false ≡ true) }
{
    if let Some(place) = first_in_round(weights, eligible, last.round, last.entrant + 1) {
        return Some(place);
    }
    if let Some(place) = first_in_round(weights, eligible, last.round + 1, 0) {
        return Some(place);
    }
    first_in_round(weights, eligible, 1, 0)
}

/// The first turn of an eligible entrant in a round, from an entrant on.
fn first_in_round(weights: &[u32], eligible: &[bool], round: u64, from: usize) -> Option<Place>
    requires lengths { length eligible.now ≡ length weights.now }
    requires round { 1 ≤ round }
    ensures first { option_map place_of result ≡ find (is_eligible eligible.now) (turns_behind weights.now round from) }
    ensures turn { IfSome result (IsTurn weights.now) }
    ensures eligible { IfSome result (λ place. slice_index_or eligible.now place.entrant false ≡ true) }
{
    for entrant in from..weights.len() {
        if u64::from(weights[entrant]) >= round && eligible[entrant] {
            return Some(Place { round, entrant });
        }
    }
    None
}
