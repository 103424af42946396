//! Entries as lines of text, for tests.
//!
//! A line has the moment, the number of the pass, the word of the event and what the event says, with one blank between two
//! of them. Messages have numbers; those of one number are the same.
//!
//! ```text
//! 0 0 accepted MESSAGE
//! 0 0 recovered MESSAGE FAILURES DUE
//! 0 0 known MESSAGE
//! 0 0 promoted MESSAGE SOURCE
//! 0 0 opened CONNECTION PATH KEY
//! 0 0 begun CONNECTION MESSAGE KEY
//! 0 0 ended CONNECTION MESSAGE OUTCOME NEXT REPLY
//! 0 0 closed CONNECTION CAUSE
//! 0 0 delayed MESSAGE NEXT
//! 0 0 ordered NUMBER ORDER DOMAIN DURATION REASON
//! 0 0 resumed NUMBER
//! 0 0 resolved MESSAGE expired
//! 0 0 resolved MESSAGE bounced NUMBER
//! 0 0 rested UNTIL
//! 0 0 stopped
//! ```
//!
//! OUTCOME is `delivered`, `transient` or `permanent`; NEXT is `settled`, `expired` or the moment at which the message is
//! due; ORDER is `suspend` or `bounce`, and DOMAIN is `*` where the order meets every queue. A reply and a reason go to the
//! line's end. A line that begins with `! ` is of an entry that may not follow where it stands.
use history_core::{Cause, Entry, Event, How, Next};
use kumo_base::Text;
use policy_core::Order;
use queue_name::{Criteria, Message, QueueName};
use smtp_reply::{Outcome, Reply};
use std::alloc::Global;
use std::test::Fail;

/// A line of a history.
#[derive(Drop)]
pub(crate) struct Line {
    pub entry: Entry,
    /// Whether the entry may follow where the line stands.
    pub may_follow: bool,
}

/// The line of a text.
pub(crate) fn read_line(alloc: Global, text: &str) -> Result<Line, Fail> {
    let (text, may_follow) = match text.strip_prefix("! ") {
        Some(refused) => (refused, false),
        None => (text, true),
    };
    let mut words = Words { rest: text };
    let entry = Entry {
        at: words.number()?,
        who: words.small()?,
        what: read_event(alloc, &mut words)?,
    };
    Ok(Line { entry, may_follow })
}

/// The words of a line that were not read yet.
#[derive(Drop)]
struct Words<'a> {
    rest: &'a str,
}

impl<'a> Words<'a> {
    /// The next word, empty at the line's end.
    fn next(&mut self) -> &'a str {
        let (word, rest) = self.rest.split_once(' ').unwrap_or((self.rest, ""));
        self.rest = rest;
        word
    }

    fn number(&mut self) -> Result<u64, Fail> {
        Ok(self.next().parse()?)
    }

    fn small(&mut self) -> Result<u32, Fail> {
        Ok(self.next().parse()?)
    }

    fn id(&mut self) -> Result<u128, Fail> {
        Ok(u128::from(self.number()?))
    }

    fn text(&mut self, alloc: Global) -> Result<Text, Fail> {
        Ok(Text::of(alloc, self.next())?)
    }

    /// All up to the line's end.
    fn rest(&mut self, alloc: Global) -> Result<Text, Fail> {
        Ok(Text::of(alloc, self.rest)?)
    }
}

/// The event of a line.
fn read_event(alloc: Global, words: &mut Words<'_>) -> Result<Event, Fail> {
    match words.next() {
        "accepted" => Ok(Event::Accepted(message(alloc, words.id()?)?)),
        "recovered" => read_recovered(alloc, words),
        "known" => Ok(Event::Known { id: words.id()? }),
        "promoted" => read_promoted(alloc, words),
        "opened" => read_opened(alloc, words),
        "begun" => read_begun(words),
        "ended" => read_ended(alloc, words),
        "closed" => read_closed(words),
        word => read_other(alloc, word, words),
    }
}

/// The event of a line that is not of a step of a message's delivery.
fn read_other(alloc: Global, word: &str, words: &mut Words<'_>) -> Result<Event, Fail> {
    match word {
        "delayed" => read_delayed(words),
        "ordered" => read_ordered(alloc, words),
        "resumed" => Ok(Event::Resumed {
            number: words.small()?,
        }),
        "resolved" => read_resolved(words),
        "rested" => Ok(Event::Rested {
            until: words.number()?,
        }),
        "stopped" => Ok(Event::Stopped),
        _ => Err(Fail::new("no event has this word")),
    }
}

/// The message of a number.
fn message(alloc: Global, id: u128) -> Result<Message, Fail> {
    Ok(Message {
        id,
        created: 0,
        sender: Text::of(alloc, "s@b.example")?,
        recipient: Text::of(alloc, "u@a.example")?,
        name: QueueName::parse(alloc, "a.example")?,
        body: Text::of(alloc, "hi")?,
    })
}

fn read_recovered(alloc: Global, words: &mut Words<'_>) -> Result<Event, Fail> {
    Ok(Event::Recovered {
        message: message(alloc, words.id()?)?,
        failures: words.small()?,
        due: words.number()?,
    })
}

fn read_promoted(alloc: Global, words: &mut Words<'_>) -> Result<Event, Fail> {
    Ok(Event::Promoted {
        id: words.id()?,
        source: words.text(alloc)?,
    })
}

fn read_opened(alloc: Global, words: &mut Words<'_>) -> Result<Event, Fail> {
    Ok(Event::Opened {
        conn: words.number()?,
        path: words.text(alloc)?,
        key: words.small()?,
    })
}

fn read_begun(words: &mut Words<'_>) -> Result<Event, Fail> {
    Ok(Event::Begun {
        conn: words.number()?,
        id: words.id()?,
        key: words.small()?,
    })
}

fn read_ended(alloc: Global, words: &mut Words<'_>) -> Result<Event, Fail> {
    let conn = words.number()?;
    let id = words.id()?;
    let word = words.next();
    let next = read_next(words)?;
    let outcome = read_outcome(word, read_reply(alloc, words)?)?;
    Ok(Event::Ended {
        conn,
        id,
        outcome,
        next,
    })
}

/// What a reply comes to, by its word.
fn read_outcome(word: &str, reply: Reply) -> Result<Outcome, Fail> {
    match word {
        "delivered" => Ok(Outcome::Delivered(reply)),
        "transient" => Ok(Outcome::Transient(reply)),
        "permanent" => Ok(Outcome::Permanent(reply)),
        _ => Err(Fail::new("no outcome has this word")),
    }
}

/// The reply at the line's end, which begins with its code.
fn read_reply(alloc: Global, words: &mut Words<'_>) -> Result<Reply, Fail> {
    let text = words.rest(alloc)?;
    let code = words.next().parse()?;
    Ok(Reply { code, text })
}

fn read_next(words: &mut Words<'_>) -> Result<Next, Fail> {
    match words.next() {
        "settled" => Ok(Next::Settled),
        "expired" => Ok(Next::Expired),
        due => Ok(Next::Due(due.parse()?)),
    }
}

fn read_closed(words: &mut Words<'_>) -> Result<Event, Fail> {
    Ok(Event::Closed {
        conn: words.number()?,
        cause: read_cause(words.next())?,
    })
}

/// The cause of a name. Those that no row has are left out.
fn read_cause(name: &str) -> Result<Cause, Fail> {
    match name {
        "Idle" => Ok(Cause::Idle),
        "Spent" => Ok(Cause::Spent),
        "Shed" => Ok(Cause::Shed),
        "Throttled" => Ok(Cause::Throttled),
        "Empty" => Ok(Cause::Empty),
        "Refused" => Ok(Cause::Refused),
        _ => Err(Fail::new("no cause has this name")),
    }
}

fn read_delayed(words: &mut Words<'_>) -> Result<Event, Fail> {
    Ok(Event::Delayed {
        id: words.id()?,
        next: read_next(words)?,
    })
}

fn read_resolved(words: &mut Words<'_>) -> Result<Event, Fail> {
    let id = words.id()?;
    match words.next() {
        "expired" => Ok(Event::Resolved {
            id,
            how: How::Expired,
        }),
        "bounced" => Ok(Event::Resolved {
            id,
            how: How::AdminBounced(words.small()?),
        }),
        _ => Err(Fail::new("no fate has this word")),
    }
}

fn read_ordered(alloc: Global, words: &mut Words<'_>) -> Result<Event, Fail> {
    Ok(Event::Ordered {
        number: words.small()?,
        order: read_order(alloc, words)?,
    })
}

fn read_order(alloc: Global, words: &mut Words<'_>) -> Result<Order, Fail> {
    let word = words.next();
    let criteria = read_criteria(alloc, words.next())?;
    let duration = words.number()?;
    let reason = words.rest(alloc)?;
    match word {
        "suspend" => Ok(Order::Suspend {
            criteria,
            reason,
            duration,
        }),
        "bounce" => Ok(Order::Bounce {
            criteria,
            reason,
            duration,
        }),
        _ => Err(Fail::new("no order has this word")),
    }
}

/// The criteria that a domain meets, every queue for `*`.
fn read_criteria(alloc: Global, domain: &str) -> Result<Criteria, Fail> {
    let domain = match domain {
        "*" => None,
        domain => Some(Text::of(alloc, domain)?),
    };
    Ok(Criteria {
        campaign: None,
        tenant: None,
        domain,
    })
}
