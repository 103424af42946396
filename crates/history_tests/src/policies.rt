//! The policy that a row runs under.
ghost use Rattle.std.specs.Prelude.{◌≡◌, IsTrue, IfOk};
ghost use Rattle.policy_core.specs.Policy.{ascend_from, are_stops};

use crate::rows::Row;
use command_words::PolicyNames;
use kumo_base::{Bytes, Items, LAST_MOMENT, Text};
use kumo_outside::{MemTexts, RegexSearch};
use policy_core::Policy;
use policy_texts::load_policy;
use std::alloc::Global;
use std::test::Fail;

/// The policy of a row's shaping file and stops.
pub(crate) fn policy_of(alloc: Global, row: &Row) -> Result<Policy, Fail> {
    let stops = read_stops(alloc, row.stops)?;
    with_stops(shaped(alloc, row.shaping)?, stops)
}

/// The policy of a shaping file.
fn shaped(alloc: Global, shaping: &str) -> Result<Policy, Fail> {
    let name = Text::of(alloc, "shaping")?;
    let text = Bytes::of(Vec::from_slice(alloc, shaping.as_bytes())?);
    let mut texts = MemTexts::new(vec![in alloc; (name, text)]?, Vec::new(alloc));
    let mut search = RegexSearch::new(alloc, Vec::new(alloc));
    let names = PolicyNames {
        sources: None,
        queues: None,
        shaping: Some("shaping"),
        mx: None,
    };
    match load_policy(alloc, &mut texts, &names, &mut search) {
        Ok(loaded) => Ok(loaded.policy),
        Err(_) => Err(Fail::new("the policy is refused")),
    }
}

/// The moments of a text, with one blank between two of them.
fn read_stops(alloc: Global, text: &str) -> Result<Vec<u64>, Fail> {
    let mut stops = Vec::new(alloc);
    for word in text.split(' ') {
        stops.push(word.parse()?)?;
    }
    Ok(stops)
}

/// The policy with other stops.
fn with_stops(mut policy: Policy, stops: Vec<u64>) -> Result<Policy, Fail> {
    if !are_stops(stops.as_slice()) {
        return Err(Fail::new("the stops do not ascend"));
    }
    policy.stops = Items::of(stops);
    Ok(policy)
}

/// Whether moments can be the stops of a policy.
#[tactic(auto, unfolding(policy_core::specs::Policy::are_stops))]
fn are_stops(stops: &[u64]) -> bool
    ensures { result ≡ are_stops stops.now }
{
    match stops {
        [] => false,
        [stop, more @ ..] => ascend_from(*stop, more),
    }
}

/// Whether moments ascend behind a first one, up to the latest moment at most.
fn ascend_from(stop: u64, more: &[u64]) -> bool
    ensures { result ≡ ascend_from stop more.now }
{
    match more {
        [] => stop <= LAST_MOMENT,
        [next, more @ ..] => stop < *next && ascend_from(*next, more),
    }
}
