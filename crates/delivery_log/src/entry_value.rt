//! What the line of an entry says, as a JSON value: one function for each event, or for each form of its line.
//!
//! `entry_value` is what `line.rt` prints; it is held to `LogText` event by event, so that a new event does not compile until
//! it has its line here. It keeps nothing. Keys are put in any order, and the map has them in byte order. Its one refusal is
//! `Memory`.
ghost use Rattle.std.specs.Prelude.{◌≡◌, IfOk, OnOk};
ghost use Rattle.serde_json.specs.Data.{put as with_member, string};
ghost use Rattle.serde_json.specs.View.{members_view, view};
ghost use Rattle.queue_name.specs.QueueName.{spelling};
ghost use Rattle.history_core.specs.declared.entry.Event.TheVariants as event;
ghost use Rattle.json_members.specs.Members.{whole_number};
ghost use Rattle.delivery_log.specs.LogText.{cause_text, lost_text, settled_kind, final_end, transient_failure, due_data, queue_order, path_order, resume_order, event_data, entry_data};
ghost use Rattle.delivery_log.specs.inside.LogMembers.{common_members, message_members, order_members, with_decision, with_criteria};

use history_core::{Cause, Entry, Event, How, Next};
use json_members::{id_text, put_given, put_number, put_text};
use kumo_base::{Memory, Text};
use policy_core::Order;
use queue_name::{Criteria, Message, QueueName};
use serde_json::{Map, Value, put};
use smtp_reply::{Lost, Outcome};
use std::alloc::Global;

/// The value that the entry's line prints.
#[tactic(auto, unfolding(crate::specs::LogText::entry_data))]
pub(crate) fn entry_value(alloc: Global, entry: &Entry) -> Result<Value, Memory>
    ensures { IfOk result (λ v. view v ≡ entry_data entry.now) }
{
    let at = entry.at;
    let by = entry.who;
    match &entry.what {
        Event::Recovered {
            message,
            failures,
            due,
        } => recovery(alloc, at, by, message, *failures, *due),
        Event::Accepted(message) => reception(alloc, at, by, message),
        Event::Known { id } => known(alloc, at, by, *id),
        Event::Promoted { id, source } => promoted(alloc, at, by, *id, source),
        Event::Opened { conn, path, key } => opened(alloc, at, by, *conn, path, *key),
        Event::Begun { conn, id, key } => begun(alloc, at, by, *conn, *id, *key),
        Event::Ended {
            conn,
            id,
            outcome,
            next,
        } => ended(alloc, at, by, *conn, *id, outcome, *next),
        Event::Closed { conn, cause } => closed(alloc, at, by, *conn, *cause),
        Event::Delayed { id, next } => delayed(alloc, at, by, *id, *next),
        Event::Ordered { number, order } => ordered(alloc, at, by, *number, order),
        Event::Resumed { number } => resumed(alloc, at, by, *number),
        Event::Resolved { id, how } => resolved(alloc, at, by, *id, *how),
        Event::Rested { until } => rested(alloc, at, by, *until),
        Event::Stopped => stopped(alloc, at, by),
    }
}

/// A message stood in the spool when the work began.
fn recovery(
    alloc: Global,
    at: u64,
    by: u32,
    message: &Message,
    failures: u32,
    due: u64,
) -> Result<Value, Memory>
    ensures { IfOk result (λ v. view v ≡ event_data at by (event.Recovered message.now failures due)) }
{
    let mut line = message_line(alloc, at, by, "Recovered", message)?;
    put_number(&mut line, alloc, "due", due)?;
    put_number(&mut line, alloc, "failures", u64::from(failures))?;
    Ok(Value::Object(line))
}

/// A message was taken over.
fn reception(alloc: Global, at: u64, by: u32, message: &Message) -> Result<Value, Memory>
    ensures { IfOk result (λ v. view v ≡ event_data at by (event.Accepted message.now)) }
{
    let line = message_line(alloc, at, by, "Reception", message)?;
    Ok(Value::Object(line))
}

/// A message came that was recovered.
fn known(alloc: Global, at: u64, by: u32, id: u128) -> Result<Value, Memory>
    ensures { IfOk result (λ v. view v ≡ event_data at by (event.Known id)) }
{
    let id = id_text(alloc, id)?;
    let mut line = began(alloc, at, by, "Known")?;
    put_text(&mut line, alloc, "id", id.as_str())?;
    Ok(Value::Object(line))
}

/// A message went to the ready queue of a path.
fn promoted(alloc: Global, at: u64, by: u32, id: u128, source: &Text) -> Result<Value, Memory>
    ensures { IfOk result (λ v. view v ≡ event_data at by (event.Promoted id source.now)) }
{
    let id = id_text(alloc, id)?;
    let mut line = began(alloc, at, by, "Promoted")?;
    put_text(&mut line, alloc, "id", id.as_str())?;
    put_text(&mut line, alloc, "source", source.as_str())?;
    Ok(Value::Object(line))
}

/// A connection was opened.
fn opened(
    alloc: Global,
    at: u64,
    by: u32,
    conn: u64,
    path: &Text,
    key: u32,
) -> Result<Value, Memory>
    ensures { IfOk result (λ v. view v ≡ event_data at by (event.Opened conn path.now key)) }
{
    let mut line = began(alloc, at, by, "Opened")?;
    put_number(&mut line, alloc, "conn", conn)?;
    put_number(&mut line, alloc, "key", u64::from(key))?;
    put_text(&mut line, alloc, "path", path.as_str())?;
    Ok(Value::Object(line))
}

/// An attempt began.
fn begun(alloc: Global, at: u64, by: u32, conn: u64, id: u128, key: u32) -> Result<Value, Memory>
    ensures { IfOk result (λ v. view v ≡ event_data at by (event.Begun conn id key)) }
{
    let id = id_text(alloc, id)?;
    let mut line = began(alloc, at, by, "Begun")?;
    put_number(&mut line, alloc, "conn", conn)?;
    put_text(&mut line, alloc, "id", id.as_str())?;
    put_number(&mut line, alloc, "key", u64::from(key))?;
    Ok(Value::Object(line))
}

/// An attempt ended.
fn ended(
    alloc: Global,
    at: u64,
    by: u32,
    conn: u64,
    id: u128,
    outcome: &Outcome,
    next: Next,
) -> Result<Value, Memory>
    ensures { IfOk result (λ v. view v ≡ event_data at by (event.Ended conn id outcome.now next)) }
{
    match next {
        Next::Settled => {
            let kind = settled_kind(outcome);
            final_end(alloc, at, by, conn, id, kind, outcome)
        }
        Next::Due(moment) => transient_failure(alloc, at, by, conn, moment, id, outcome),
        Next::Expired => final_end(alloc, at, by, conn, id, "Expiration", outcome),
    }
}

/// An attempt ended for good.
fn final_end(
    alloc: Global,
    at: u64,
    by: u32,
    conn: u64,
    id: u128,
    kind: &str,
    outcome: &Outcome,
) -> Result<Value, Memory>
    ensures { IfOk result (λ v. view v ≡ final_end at by conn id kind.now outcome.now) }
{
    let id = id_text(alloc, id)?;
    let mut line = began(alloc, at, by, kind)?;
    put_number(&mut line, alloc, "conn", conn)?;
    put_text(&mut line, alloc, "id", id.as_str())?;
    put_decision(&mut line, alloc, outcome)?;
    Ok(Value::Object(line))
}

/// An attempt ended, and its message is due again.
fn transient_failure(
    alloc: Global,
    at: u64,
    by: u32,
    conn: u64,
    due: u64,
    id: u128,
    outcome: &Outcome,
) -> Result<Value, Memory>
    ensures { IfOk result (λ v. view v ≡ transient_failure at by conn due id outcome.now) }
{
    let id = id_text(alloc, id)?;
    let mut line = began(alloc, at, by, "TransientFailure")?;
    put_number(&mut line, alloc, "conn", conn)?;
    put_number(&mut line, alloc, "due", due)?;
    put_text(&mut line, alloc, "id", id.as_str())?;
    put_decision(&mut line, alloc, outcome)?;
    Ok(Value::Object(line))
}

/// A connection was closed.
fn closed(alloc: Global, at: u64, by: u32, conn: u64, cause: Cause) -> Result<Value, Memory>
    ensures { IfOk result (λ v. view v ≡ event_data at by (event.Closed conn cause)) }
{
    let mut line = began(alloc, at, by, "Closed")?;
    put_text(&mut line, alloc, "cause", cause_text(cause))?;
    put_number(&mut line, alloc, "conn", conn)?;
    Ok(Value::Object(line))
}

/// A message was delayed.
fn delayed(alloc: Global, at: u64, by: u32, id: u128, next: Next) -> Result<Value, Memory>
    ensures { IfOk result (λ v. view v ≡ event_data at by (event.Delayed id next)) }
{
    let id = id_text(alloc, id)?;
    let mut line = began(alloc, at, by, "Delayed")?;
    put(&mut line, alloc, "due", due_value(next))?;
    put_text(&mut line, alloc, "id", id.as_str())?;
    Ok(Value::Object(line))
}

/// An order was given.
fn ordered(alloc: Global, at: u64, by: u32, number: u32, order: &Order) -> Result<Value, Memory>
    ensures { IfOk result (λ v. view v ≡ event_data at by (event.Ordered number order.now)) }
{
    match order {
        Order::Suspend {
            criteria,
            reason,
            duration,
        } => queue_order(
            alloc, at, by, number, "Suspend", criteria, reason, *duration,
        ),
        Order::SuspendReady {
            path,
            reason,
            duration,
        } => path_order(alloc, at, by, number, path, reason, *duration),
        Order::Bounce {
            criteria,
            reason,
            duration,
        } => queue_order(alloc, at, by, number, "Bounce", criteria, reason, *duration),
        Order::Resume { number: resumed } => resume_order(alloc, at, by, number, *resumed),
    }
}

/// An order about queues was given.
fn queue_order(
    alloc: Global,
    at: u64,
    by: u32,
    number: u32,
    what: &str,
    criteria: &Criteria,
    reason: &Text,
    duration: u64,
) -> Result<Value, Memory>
    ensures { IfOk result (λ v. view v ≡ queue_order at by number what.now criteria.now reason.now duration) }
{
    let mut line = order_line(alloc, at, by, number, what)?;
    put_number(&mut line, alloc, "duration", duration)?;
    put_text(&mut line, alloc, "reason", reason.as_str())?;
    put_criteria(&mut line, alloc, criteria)?;
    Ok(Value::Object(line))
}

/// An order about one path was given.
fn path_order(
    alloc: Global,
    at: u64,
    by: u32,
    number: u32,
    path: &Text,
    reason: &Text,
    duration: u64,
) -> Result<Value, Memory>
    ensures { IfOk result (λ v. view v ≡ path_order at by number path.now reason.now duration) }
{
    let mut line = order_line(alloc, at, by, number, "SuspendReady")?;
    put_number(&mut line, alloc, "duration", duration)?;
    put_text(&mut line, alloc, "path", path.as_str())?;
    put_text(&mut line, alloc, "reason", reason.as_str())?;
    Ok(Value::Object(line))
}

/// A resumption was given as an order, which no legal history has.
fn resume_order(alloc: Global, at: u64, by: u32, number: u32, resumed: u32) -> Result<Value, Memory>
    ensures { IfOk result (λ v. view v ≡ resume_order at by number resumed) }
{
    let mut line = order_line(alloc, at, by, number, "Resume")?;
    put_number(&mut line, alloc, "number", u64::from(resumed))?;
    Ok(Value::Object(line))
}

/// An order was ended.
fn resumed(alloc: Global, at: u64, by: u32, number: u32) -> Result<Value, Memory>
    ensures { IfOk result (λ v. view v ≡ event_data at by (event.Resumed number)) }
{
    let mut line = began(alloc, at, by, "Resumed")?;
    put_number(&mut line, alloc, "order", u64::from(number))?;
    Ok(Value::Object(line))
}

/// A message got its fate without an attempt.
fn resolved(alloc: Global, at: u64, by: u32, id: u128, how: How) -> Result<Value, Memory>
    ensures { IfOk result (λ v. view v ≡ event_data at by (event.Resolved id how)) }
{
    let id = id_text(alloc, id)?;
    match how {
        How::Expired => {
            let mut line = began(alloc, at, by, "Expiration")?;
            put_text(&mut line, alloc, "id", id.as_str())?;
            Ok(Value::Object(line))
        }
        How::AdminBounced(number) => {
            let mut line = began(alloc, at, by, "AdminBounce")?;
            put_text(&mut line, alloc, "id", id.as_str())?;
            put_number(&mut line, alloc, "order", u64::from(number))?;
            Ok(Value::Object(line))
        }
    }
}

/// Nothing was left to do before a moment.
fn rested(alloc: Global, at: u64, by: u32, until: u64) -> Result<Value, Memory>
    ensures { IfOk result (λ v. view v ≡ event_data at by (event.Rested until)) }
{
    let mut line = began(alloc, at, by, "Rested")?;
    put_number(&mut line, alloc, "until", until)?;
    Ok(Value::Object(line))
}

/// The work ended.
fn stopped(alloc: Global, at: u64, by: u32) -> Result<Value, Memory>
    ensures { IfOk result (λ v. view v ≡ event_data at by event.Stopped) }
{
    let line = began(alloc, at, by, "Stopped")?;
    Ok(Value::Object(line))
}

/// The members that each line has: when, by which pass and what.
fn began(alloc: Global, at: u64, by: u32, kind: &str) -> Result<Map<String, Value>, Memory>
    ensures { IfOk result (λ line. members_view line.entries ≡ common_members at by kind.now) }
{
    let mut line = Map::new(alloc);
    put_number(&mut line, alloc, "at", at)?;
    put_number(&mut line, alloc, "by", u64::from(by))?;
    put_text(&mut line, alloc, "kind", kind)?;
    Ok(line)
}

/// What the lines of a message that comes into the history have alike.
fn message_line(
    alloc: Global,
    at: u64,
    by: u32,
    kind: &str,
    message: &Message,
) -> Result<Map<String, Value>, Memory>
    ensures { IfOk result (λ line. members_view line.entries ≡ message_members at by kind.now message.now) }
{
    let id = id_text(alloc, message.id)?;
    let queue = queue_text(alloc, &message.name)?;
    let mut line = began(alloc, at, by, kind)?;
    put_text(&mut line, alloc, "body", message.body.as_str())?;
    put_number(&mut line, alloc, "created", message.created)?;
    put_text(&mut line, alloc, "id", id.as_str())?;
    put_text(&mut line, alloc, "queue", queue.as_str())?;
    put_text(&mut line, alloc, "recipient", message.recipient.as_str())?;
    put_text(&mut line, alloc, "sender", message.sender.as_str())?;
    Ok(line)
}

/// What the lines of orders have alike.
fn order_line(
    alloc: Global,
    at: u64,
    by: u32,
    number: u32,
    what: &str,
) -> Result<Map<String, Value>, Memory>
    ensures { IfOk result (λ line. members_view line.entries ≡ order_members at by number what.now) }
{
    let mut line = began(alloc, at, by, "Ordered")?;
    put_number(&mut line, alloc, "order", u64::from(number))?;
    put_text(&mut line, alloc, "what", what)?;
    Ok(line)
}

/// Puts the components that criteria give.
fn put_criteria(
    line: &mut Map<String, Value>,
    alloc: Global,
    criteria: &Criteria,
) -> Result<(), Memory>
    ensures { OnOk result (members_view line.new.entries ≡ with_criteria criteria.now (members_view line.old.entries)) }
{
    put_given(line, alloc, "tenant", &criteria.tenant)?;
    put_given(line, alloc, "domain", &criteria.domain)?;
    put_given(line, alloc, "campaign", &criteria.campaign)
}

/// Puts the reply's text, or why there was none.
fn put_decision(
    line: &mut Map<String, Value>,
    alloc: Global,
    outcome: &Outcome,
) -> Result<(), Memory>
    ensures { OnOk result (members_view line.new.entries ≡ with_decision outcome.now (members_view line.old.entries)) }
{
    match outcome {
        Outcome::Delivered(reply) => put_text(line, alloc, "reply", reply.text.as_str()),
        Outcome::Transient(reply) => put_text(line, alloc, "reply", reply.text.as_str()),
        Outcome::Permanent(reply) => put_text(line, alloc, "reply", reply.text.as_str()),
        Outcome::Lost(why) => put_text(line, alloc, "lost", lost_text(*why)),
    }
}

/// The moment at which a delayed message is due.
fn due_value(next: Next) -> Value
    ensures { view result ≡ due_data next }
{
    match next {
        Next::Settled | Next::Expired => Value::Null,
        Next::Due(moment) => Value::from(moment),
    }
}

/// The spelling of a queue's name.
fn queue_text(alloc: Global, name: &QueueName) -> Result<Text, Memory>
    ensures { IfOk result (λ text. text ≡ spelling name.now) }
{
    let mut text = Text::new(alloc);
    name.text_into(alloc, &mut text)?;
    Ok(text)
}

/// The kind of an attempt that settled its message.
fn settled_kind(outcome: &Outcome) -> &'static str
    ensures { result.now ≡ settled_kind outcome.now }
{
    match outcome {
        Outcome::Delivered(_) => "Delivery",
        Outcome::Transient(_) | Outcome::Permanent(_) | Outcome::Lost(_) => "Bounce",
    }
}

/// Why there was no reply.
fn lost_text(why: Lost) -> &'static str
    ensures { result.now ≡ lost_text why }
{
    match why {
        Lost::LinkFault => "LinkFault",
        Lost::Ended => "Ended",
        Lost::BadReply => "BadReply",
        Lost::TooLong => "TooLong",
    }
}

/// Why a connection was closed.
fn cause_text(cause: Cause) -> &'static str
    ensures { result.now ≡ cause_text cause }
{
    match cause {
        Cause::Idle => "Idle",
        Cause::Spent => "Spent",
        Cause::Shed => "Shed",
        Cause::Halted => "Halted",
        Cause::Throttled => "Throttled",
        Cause::Empty => "Empty",
        Cause::Broken => "Broken",
        Cause::Refused => "Refused",
        Cause::Stop => "Stop",
    }
}
