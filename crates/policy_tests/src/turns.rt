//! The turns of a pool's entrants.
use egress_pool::Turner;
use kumo_base::{Items, Memory, Text};
use policy_core::{Entrant, Pool};
use std::alloc::Global;
use std::process::Abort;
use std::test::Fail;

/// A pool of entrants with these weights.
fn pool(alloc: Global, weights: &[u32]) -> Result<Pool, Memory> {
    let mut entrants = Vec::new(alloc);
    for weight in weights {
        entrants.push(Entrant {
            source: Text::of(alloc, "s")?,
            weight: *weight,
        })?;
    }
    Ok(Pool {
        name: Text::of(alloc, "p")?,
        entrants: Items::of(entrants),
    })
}

/// The turner of a pool of entrants with these weights.
fn turner(alloc: Global, weights: &[u32]) -> Result<Turner, Memory> {
    Turner::new(alloc, &pool(alloc, weights)?)
}

/// The number of the entrant whose turn it is.
fn picked(rt: &impl Abort, turner: &mut Turner, eligible: &[bool]) -> Option<usize> {
    assert_eq!(rt; turner.entrant_count(), eligible.len());
    turner.pick(eligible)
}

/// Goes through rows of who is eligible, and of the picks in a row that are then to come.
fn expect_picks(
    rt: &impl Abort,
    alloc: Global,
    weights: &[u32],
    rows: &[(&[bool], &[Option<usize>])],
) -> Result<(), Fail> {
    let mut turner = turner(alloc, weights)?;
    for (eligible, picks) in rows {
        for pick in *picks {
            assert_eq!(rt; picked(rt, &mut turner, eligible), *pick);
        }
    }
    Ok(())
}

const ALL: &[bool] = &[true, true, true];

const A: Option<usize> = Some(0);

const B: Option<usize> = Some(1);

#[test]
fn turns_go_by_weight(rt: HostRuntime) -> Result<(), Fail> {
    let without_first = [false, true, true];
    let last_alone = [false, false, true];
    let rows: [(&[bool], &[Option<usize>]); 5] = [
        (ALL, &[A, B, A, A, B, A]),
        (&without_first, &[B, B]),
        (ALL, &[A, A]),
        (&last_alone, &[None]),
        (ALL, &[B, A, A]),
    ];
    expect_picks(&rt, rt.alloc(), &[2, 1, 0], &rows)
}

#[test]
fn a_pool_without_turns(rt: HostRuntime) -> Result<(), Fail> {
    expect_picks(&rt, rt.alloc(), &[0], &[(&[true], &[None])])?;
    expect_picks(&rt, rt.alloc(), &[], &[(&[], &[None])])
}
