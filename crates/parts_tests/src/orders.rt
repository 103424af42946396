//! The orders of an administrator: five of different kinds, and many calls against a plain list.
use crate::numbers::Numbers;
use kumo_base::Text;
use policy_core::Order;
use queue_name::{Criteria, QueueName};
use std::alloc::Global;
use std::process::Abort;
use std::test::Fail;
use suspensions::Book;

/// What an order does. Its criteria are a tenant and a domain, where they are given.
#[derive(Clone, Copy, PartialEq, Eq)]
enum Kind {
    Suspend,
    Bounce,
    /// It halts the path whose text is the domain.
    Halt,
}

/// An order of the plain list.
#[derive(Clone, Copy)]
struct Plain {
    kind: Kind,
    tenant: Option<&'static str>,
    domain: Option<&'static str>,
    at: u64,
    duration: u64,
    resumed: bool,
}

/// A text that may be absent.
fn text(alloc: Global, given: Option<&str>) -> Result<Option<Text>, Fail> {
    match given {
        Some(text) => Ok(Some(Text::of(alloc, text)?)),
        None => Ok(None),
    }
}

/// The order as the book takes it.
fn order(alloc: Global, plain: &Plain) -> Result<Order, Fail> {
    let reason = Text::of(alloc, "why")?;
    let duration = plain.duration;
    let criteria = Criteria {
        campaign: None,
        tenant: text(alloc, plain.tenant)?,
        domain: text(alloc, plain.domain)?,
    };
    Ok(match plain.kind {
        Kind::Suspend => Order::Suspend {
            criteria,
            reason,
            duration,
        },
        Kind::Bounce => Order::Bounce {
            criteria,
            reason,
            duration,
        },
        Kind::Halt => Order::SuspendReady {
            path: Text::of(alloc, plain.domain.unwrap_or(""))?,
            reason,
            duration,
        },
    })
}

/// What is asked of an order.
#[derive(Clone, Copy)]
enum Question {
    /// Whether it holds the messages of a queue, by tenant and domain.
    Holds(&'static str, &'static str),
    /// Whether it bounces them.
    Bounces(&'static str, &'static str),
    /// Whether it halts the path of a text.
    Halts(&'static str),
}

/// Whether a component that is given equals a name's.
fn is_met(given: Option<&str>, component: &str) -> bool {
    match given {
        Some(given) => given == component,
        None => true,
    }
}

impl Plain {
    fn is_live(&self, t: u64) -> bool {
        self.at <= t && t < self.at.saturating_add(self.duration) && !self.resumed
    }

    /// Whether it is live and the answer is yes. Bounces hold messages too.
    fn answers(&self, question: Question, t: u64) -> bool {
        let matches = match question {
            Question::Holds(tenant, domain) => {
                self.kind != Kind::Halt
                    && is_met(self.tenant, tenant)
                    && is_met(self.domain, domain)
            }
            Question::Bounces(tenant, domain) => {
                self.kind == Kind::Bounce
                    && is_met(self.tenant, tenant)
                    && is_met(self.domain, domain)
            }
            Question::Halts(path) => self.kind == Kind::Halt && is_met(self.domain, path),
        };
        self.is_live(t) && matches
    }
}

/// Gives an order to the book, and answers its number.
fn given(alloc: Global, book: &mut Book, plain: &Plain) -> Result<Option<u32>, Fail> {
    let order = order(alloc, plain)?;
    if book.len() >= 4000 {
        return Ok(None);
    }
    Ok(Some(book.add(plain.at, order)?))
}

fn new_order(
    kind: Kind,
    tenant: Option<&'static str>,
    domain: Option<&'static str>,
    at: u64,
    duration: u64,
) -> Plain {
    Plain {
        kind,
        tenant,
        domain,
        at,
        duration,
        resumed: false,
    }
}

/// What is asked of a book at a moment, and the answer.
#[derive(Clone, Copy)]
enum Asked {
    /// The tenant and the domain of a queue.
    Held(&'static str, &'static str, Option<u32>),
    Bounced(&'static str, &'static str, Option<u32>),
    /// The text of a path.
    Halted(&'static str, Option<u32>),
    NextEnd(Option<u64>),
    /// The number of an order, and whether it was live.
    Resumes(u32, bool),
}

/// The name of the queue of a tenant's mail to a domain; no tenant where the text is empty.
fn name_of(alloc: Global, tenant: &str, domain: &str) -> Result<QueueName, Fail> {
    let spelling = if tenant.is_empty() {
        format!(in alloc; "{domain}")?
    } else {
        format!(in alloc; "{tenant}@{domain}")?
    };
    Ok(QueueName::parse(alloc, spelling.as_str())?)
}

fn expect_answer(
    rt: &impl Abort,
    alloc: Global,
    book: &mut Book,
    t: u64,
    asked: Asked,
) -> Result<(), Fail> {
    match asked {
        Asked::Held(tenant, domain, wanted) => {
            assert_eq!(rt;
                book.held(&name_of(alloc, tenant, domain)?, t),
                wanted,
                "held {t} {tenant} {domain}"
            );
        }
        Asked::Bounced(tenant, domain, wanted) => {
            assert_eq!(rt;
                book.bounced(&name_of(alloc, tenant, domain)?, t),
                wanted,
                "bounced {t} {tenant} {domain}"
            );
        }
        Asked::Halted(path, wanted) => assert_eq!(rt;
            book.halted(path, t),
            wanted,
            "halted {t} {path}"
        ),
        Asked::NextEnd(wanted) => assert_eq!(rt; book.next_end(t), wanted, "next end {t}"),
        Asked::Resumes(number, wanted) => assert_eq!(rt;
            book.resume(t, number).is_ok(),
            wanted,
            "resume {t} {number}"
        ),
    }
    Ok(())
}

#[test]
fn five_orders(rt: HostRuntime) -> Result<(), Fail> {
    let alloc = rt.alloc();
    let orders = [
        new_order(Kind::Suspend, Some("shop"), None, 0, 100),
        new_order(Kind::Bounce, None, Some("a.example"), 10, 50),
        new_order(Kind::Halt, None, Some("s->a.example"), 20, 300),
        new_order(Kind::Suspend, Some("bank"), Some("b.example"), 30, u64::MAX),
        new_order(Kind::Bounce, None, None, 40, 5),
    ];
    let mut book = Book::new(alloc);
    for order in &orders {
        given(alloc, &mut book, order)?;
    }
    let rows = [
        (0, Asked::Held("shop", "b.example", Some(1))),
        (0, Asked::NextEnd(Some(100))),
        (9, Asked::Held("", "a.example", None)),
        (10, Asked::Held("", "a.example", Some(2))),
        (10, Asked::Held("shop", "a.example", Some(1))),
        (10, Asked::Bounced("shop", "a.example", Some(2))),
        (19, Asked::Halted("s->a.example", None)),
        (20, Asked::Halted("s->a.example", Some(3))),
        (20, Asked::Halted("s->b.example", None)),
        (30, Asked::Held("bank", "b.example", Some(4))),
        (40, Asked::Held("", "b.example", Some(5))),
        (40, Asked::NextEnd(Some(45))),
        (45, Asked::Held("", "b.example", None)),
        (45, Asked::NextEnd(Some(60))),
        (50, Asked::Resumes(1, true)),
        (50, Asked::Resumes(1, false)),
        (50, Asked::Held("shop", "b.example", None)),
        (50, Asked::Held("shop", "a.example", Some(2))),
        (60, Asked::Held("shop", "a.example", None)),
        (60, Asked::Resumes(2, false)),
        (60, Asked::Resumes(0, false)),
        (60, Asked::Resumes(6, false)),
        (60, Asked::NextEnd(Some(320))),
        (320, Asked::Halted("s->a.example", None)),
        (320, Asked::Held("bank", "b.example", Some(4))),
        (320, Asked::Resumes(4, true)),
        (320, Asked::NextEnd(None)),
    ];
    for (t, asked) in rows {
        expect_answer(&rt, alloc, &mut book, t, asked)?;
    }
    Ok(())
}

const TENANTS: [&str; 2] = ["shop", "bank"];

const DOMAINS: [&str; 3] = ["a.example", "b.example", "c.example"];

/// One of the texts, or none.
fn picked(numbers: &mut Numbers, texts: &[&'static str]) -> Option<&'static str> {
    texts.get(numbers.below(4) as usize).copied()
}

fn made_order(numbers: &mut Numbers) -> Plain {
    let kind = match numbers.below(3) {
        0 => Kind::Suspend,
        1 => Kind::Bounce,
        _ => Kind::Halt,
    };
    let tenant = picked(numbers, &TENANTS);
    let domain = Some(picked(numbers, &DOMAINS).unwrap_or("c.example"));
    new_order(
        kind,
        tenant,
        domain,
        u64::from(numbers.below(1000)),
        u64::from(numbers.below(100)),
    )
}

/// The number of the first order of a plain list that answers yes. Orders are numbered from 1.
fn plain_first(list: &[Plain], question: Question, t: u64) -> Option<u32> {
    let mut number = 0_u32;
    for order in list {
        number = number.wrapping_add(1);
        if order.answers(question, t) {
            return Some(number);
        }
    }
    None
}

/// The least end of the live orders of a plain list.
fn plain_next_end(list: &[Plain], t: u64) -> Option<u64> {
    let mut least: Option<u64> = None;
    for order in list {
        let end = order.at.saturating_add(order.duration);
        if order.is_live(t) && least.is_none_or(|least| end < least) {
            least = Some(end);
        }
    }
    least
}

/// One made call on both, the book and the plain list.
fn make_call(
    rt: &impl Abort,
    alloc: Global,
    numbers: &mut Numbers,
    book: &mut Book,
    list: &mut Vec<Plain>,
) -> Result<(), Fail> {
    let t = u64::from(numbers.below(1100));
    let tenant = picked(numbers, &TENANTS).unwrap_or("shop");
    let domain = picked(numbers, &DOMAINS).unwrap_or("a.example");
    let name = name_of(alloc, tenant, domain)?;
    match numbers.below(6) {
        0 => {
            let order = made_order(numbers);
            list.push(order)?;
            let number = u32::try_from(list.len()).ok();
            assert_eq!(rt; given(alloc, book, &order)?, number);
        }
        1 => {
            let number = numbers.below(400);
            let was_live = resume(list, t, number);
            assert_eq!(rt; book.resume(t, number).is_ok(), was_live);
        }
        2 => {
            let wanted = plain_first(list, Question::Holds(tenant, domain), t);
            assert_eq!(rt; book.held(&name, t), wanted);
        }
        3 => {
            let wanted = plain_first(list, Question::Bounces(tenant, domain), t);
            assert_eq!(rt; book.bounced(&name, t), wanted);
        }
        4 => {
            let wanted = plain_first(list, Question::Halts(domain), t);
            assert_eq!(rt; book.halted(domain, t), wanted);
        }
        _ => assert_eq!(rt; book.next_end(t), plain_next_end(list, t)),
    }
    Ok(())
}

/// Takes an order of a plain list back, where one of this number is live, and says whether one was.
fn resume(list: &mut [Plain], t: u64, number: u32) -> bool {
    let Some(place) = (number as usize).checked_sub(1) else {
        return false;
    };
    let Some(order) = list.get_mut(place) else {
        return false;
    };
    let was_live = order.is_live(t);
    if was_live {
        order.resumed = true;
    }
    was_live
}

#[test]
fn made_calls_of_a_book(rt: HostRuntime) -> Result<(), Fail> {
    let mut book = Book::new(rt.alloc());
    let mut list = Vec::new(rt.alloc());
    let mut numbers = Numbers::from_seed(3);
    for _ in 0..2000 {
        make_call(&rt, rt.alloc(), &mut numbers, &mut book, &mut list)?;
    }
    Ok(())
}
