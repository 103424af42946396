//! The lines of the log that the cases of `tests/` do not show: attempts that end without a delivery, what comes of a spool,
//! of orders and of waits.
use delivery_log::entry_line;
use history_core::{Cause, Entry, Event, How, Next};
use kumo_base::{Memory, Text};
use policy_core::Order;
use queue_name::{Criteria, Message, QueueName};
use smtp_reply::{Lost, Outcome, Reply};
use std::alloc::Global;
use std::test::Fail;

/// The lines of entries, one behind another.
#[derive(Drop)]
struct Lines {
    alloc: Global,
    text: Text,
}

impl Lines {
    /// Appends the line of an event at a moment, by the owner.
    fn put(&mut self, at: u64, what: Event) -> Result<(), Memory> {
        let line = entry_line(self.alloc, &Entry { at, who: 0, what })?;
        self.text.push_str(line.as_str())
    }
}

fn reply(alloc: Global, code: u16, text: &str) -> Result<Reply, Memory> {
    Ok(Reply {
        code,
        text: Text::of(alloc, text)?,
    })
}

/// The end of an attempt.
fn end(outcome: Outcome, next: Next) -> Event {
    Event::Ended {
        conn: 1,
        id: 1,
        outcome,
        next,
    }
}

/// A refusal for good, one for now, and a link that ended, of a message that is too old.
fn put_ends(alloc: Global, lines: &mut Lines) -> Result<(), Memory> {
    let refused = Outcome::Permanent(reply(alloc, 550, "550 no")?);
    let later = Outcome::Transient(reply(alloc, 451, "451 later")?);
    lines.put(0, end(refused, Next::Settled))?;
    lines.put(0, end(later, Next::Due(1_200_000)))?;
    lines.put(0, end(Outcome::Lost(Lost::Ended), Next::Expired))
}

fn message(alloc: Global) -> Result<Message, Fail> {
    Ok(Message {
        id: 1,
        created: 0,
        sender: Text::of(alloc, "s@b.example")?,
        recipient: Text::of(alloc, "u@a.example")?,
        name: QueueName::parse(alloc, "a.example")?,
        body: Text::of(alloc, "hi")?,
    })
}

/// A message of the spool that failed once, and was handed in again.
fn put_spooled(alloc: Global, lines: &mut Lines) -> Result<(), Fail> {
    let recovered = Event::Recovered {
        message: message(alloc)?,
        failures: 1,
        due: 1_200_000,
    };
    lines.put(60_000, recovered)?;
    lines.put(60_000, Event::Known { id: 1 })?;
    Ok(())
}

/// An order of this number.
fn given(number: u32, order: Order) -> Event {
    Event::Ordered { number, order }
}

/// A suspension of a domain.
fn suspension(alloc: Global) -> Result<Order, Memory> {
    let criteria = Criteria {
        campaign: None,
        tenant: None,
        domain: Some(Text::of(alloc, "a.example")?),
    };
    Ok(Order::Suspend {
        criteria,
        reason: Text::of(alloc, "r")?,
        duration: 300_000,
    })
}

/// A suspension of a path.
fn halt(alloc: Global) -> Result<Order, Memory> {
    Ok(Order::SuspendReady {
        path: Text::of(alloc, "unspecified->a.example")?,
        reason: Text::of(alloc, "r")?,
        duration: 300_000,
    })
}

/// A bounce of a campaign of a tenant.
fn bounce(alloc: Global) -> Result<Order, Memory> {
    let criteria = Criteria {
        campaign: Some(Text::of(alloc, "c")?),
        tenant: Some(Text::of(alloc, "t")?),
        domain: None,
    };
    Ok(Order::Bounce {
        criteria,
        reason: Text::of(alloc, "r")?,
        duration: 300_000,
    })
}

/// Orders, and the end of one.
fn put_orders(alloc: Global, lines: &mut Lines) -> Result<(), Memory> {
    lines.put(0, given(1, suspension(alloc)?))?;
    lines.put(0, given(2, halt(alloc)?))?;
    lines.put(0, given(3, bounce(alloc)?))?;
    lines.put(0, Event::Resumed { number: 1 })
}

/// A message that was delayed.
fn delayed(next: Next) -> Event {
    Event::Delayed { id: 1, next }
}

/// A fate without an attempt.
fn resolved(how: How) -> Event {
    Event::Resolved { id: 1, how }
}

/// Messages that are delayed or settled without an attempt, a rest, and a connection that had nothing to send.
fn put_waits(lines: &mut Lines) -> Result<(), Memory> {
    let cause = Cause::Idle;
    lines.put(0, delayed(Next::Due(1_200_000)))?;
    lines.put(0, delayed(Next::Expired))?;
    lines.put(0, resolved(How::Expired))?;
    lines.put(0, resolved(How::AdminBounced(3)))?;
    lines.put(0, Event::Rested { until: 300_000 })?;
    lines.put(0, Event::Closed { conn: 1, cause })
}

/// The lines of all of them.
fn all_lines(alloc: Global) -> Result<Text, Fail> {
    let text = Text::new(alloc);
    let mut lines = Lines { alloc, text };
    put_ends(alloc, &mut lines)?;
    put_spooled(alloc, &mut lines)?;
    put_orders(alloc, &mut lines)?;
    put_waits(&mut lines)?;
    Ok(lines.text)
}

const WANTED: &str =
    r#"{"at":0,"by":0,"conn":1,"id":"00000000-0000-0000-0000-000000000001","kind":"Bounce","reply":"550 no"}
{"at":0,"by":0,"conn":1,"due":1200000,"id":"00000000-0000-0000-0000-000000000001","kind":"TransientFailure","reply":"451 later"}
{"at":0,"by":0,"conn":1,"id":"00000000-0000-0000-0000-000000000001","kind":"Expiration","lost":"Ended"}
{"at":60000,"body":"hi","by":0,"created":0,"due":1200000,"failures":1,"id":"00000000-0000-0000-0000-000000000001","kind":"Recovered","queue":"a.example","recipient":"u@a.example","sender":"s@b.example"}
{"at":60000,"by":0,"id":"00000000-0000-0000-0000-000000000001","kind":"Known"}
{"at":0,"by":0,"domain":"a.example","duration":300000,"kind":"Ordered","order":1,"reason":"r","what":"Suspend"}
{"at":0,"by":0,"duration":300000,"kind":"Ordered","order":2,"path":"unspecified->a.example","reason":"r","what":"SuspendReady"}
{"at":0,"by":0,"campaign":"c","duration":300000,"kind":"Ordered","order":3,"reason":"r","tenant":"t","what":"Bounce"}
{"at":0,"by":0,"kind":"Resumed","order":1}
{"at":0,"by":0,"due":1200000,"id":"00000000-0000-0000-0000-000000000001","kind":"Delayed"}
{"at":0,"by":0,"due":null,"id":"00000000-0000-0000-0000-000000000001","kind":"Delayed"}
{"at":0,"by":0,"id":"00000000-0000-0000-0000-000000000001","kind":"Expiration"}
{"at":0,"by":0,"id":"00000000-0000-0000-0000-000000000001","kind":"AdminBounce","order":3}
{"at":0,"by":0,"kind":"Rested","until":300000}
{"at":0,"by":0,"cause":"Idle","conn":1,"kind":"Closed"}
"#;

#[test]
fn entries_have_their_lines(rt: HostRuntime) -> Result<(), Fail> {
    assert_eq!(rt; all_lines(rt.alloc())?.as_str(), WANTED);
    Ok(())
}
