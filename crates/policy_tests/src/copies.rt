//! Copies of a pool, of settings and of an order.
use kumo_base::{Items, Memory, Text};
use policy_core::{Entrant, Order, Pool, Settings};
use queue_name::Criteria;
use std::alloc::Global;
use std::test::Fail;

/// A text, or `-` where there is none.
fn shown_optional(text: &Option<Text>) -> &str {
    match text {
        Some(text) => text.as_str(),
        None => "-",
    }
}

/// A pool of one source.
fn pool(alloc: Global) -> Result<Pool, Memory> {
    let entrant = Entrant {
        source: Text::of(alloc, "ip-1")?,
        weight: 2,
    };
    Ok(Pool {
        name: Text::of(alloc, "bulk")?,
        entrants: Items::of(vec![in alloc; entrant]?),
    })
}

/// A pool with its weights.
fn shown_pool(alloc: Global, pool: &Pool) -> Result<String, Fail> {
    let mut out = format!(in alloc; "{}:", pool.name.as_str())?;
    for entrant in pool.entrants.as_slice() {
        write!(out, " {}={}", entrant.source.as_str(), entrant.weight)?;
    }
    Ok(out)
}

#[test]
fn pools_are_copied(rt: HostRuntime) -> Result<(), Fail> {
    let copy = pool(rt.alloc())?.copy(rt.alloc())?;
    assert_eq!(rt; shown_pool(rt.alloc(), &copy)?.as_str(), "bulk: ip-1=2");
    Ok(())
}

fn settings(alloc: Global) -> Result<Settings, Memory> {
    Ok(Settings {
        max_age: 3,
        retry_interval: 4,
        max_retry_interval: Some(5),
        pool: Text::of(alloc, "p")?,
    })
}

#[test]
fn settings_are_copied(rt: HostRuntime) -> Result<(), Fail> {
    let copy = settings(rt.alloc())?.copy(rt.alloc())?;
    assert_eq!(rt; (copy.max_age, copy.retry_interval), (3, 4));
    assert_eq!(rt; copy.max_retry_interval, Some(5));
    assert_eq!(rt; copy.pool.as_str(), "p");
    Ok(())
}

fn criteria(alloc: Global) -> Result<Criteria, Memory> {
    Ok(Criteria {
        campaign: Some(Text::of(alloc, "spring")?),
        tenant: None,
        domain: Some(Text::of(alloc, "a.example")?),
    })
}

fn suspension(alloc: Global) -> Result<Order, Memory> {
    Ok(Order::Suspend {
        criteria: criteria(alloc)?,
        reason: Text::of(alloc, "mailbox full")?,
        duration: 5_000,
    })
}

/// A suspension on one line.
fn shown_order(alloc: Global, order: &Order) -> Result<String, Fail> {
    let Order::Suspend {
        criteria,
        reason,
        duration,
    } = order
    else {
        return Err(Fail::new("another order"));
    };
    let (campaign, tenant) = (
        shown_optional(&criteria.campaign),
        shown_optional(&criteria.tenant),
    );
    let domain = shown_optional(&criteria.domain);
    let reason = reason.as_str();
    Ok(format!(in alloc; "{campaign} {tenant} {domain} {reason} {duration}")?)
}

#[test]
fn orders_are_copied(rt: HostRuntime) -> Result<(), Fail> {
    let copy = suspension(rt.alloc())?.copy(rt.alloc())?;
    assert_eq!(rt;
        shown_order(rt.alloc(), &copy)?.as_str(),
        "spring - a.example mailbox full 5000"
    );
    Ok(())
}
