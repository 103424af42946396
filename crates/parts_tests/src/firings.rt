//! Firings of rules: a threshold, what is in force, and many calls against a plain list of matches.
use crate::numbers::Numbers;
use automation_rules::Automaton;
use kumo_base::{Items, Text};
use kumo_outside::RegexSearch;
use policy_core::{Action, Options, PathBase, Rule, Setting, Site, Trigger};
use queue_name::QueueName;
use std::alloc::Global;
use std::process::Abort;
use std::test::Fail;
use throttle_spec::ThrottleSpec;

const MINUTE: u64 = 60_000;

const HOUR: u64 = 3_600_000;

/// What a rule does, when it fires, and for how long it is then in force.
#[derive(Clone, Copy)]
struct Shape {
    action: Action,
    trigger: Trigger,
    duration: u64,
}

/// The rules of each path, which are numbered from 1.
fn shapes() -> Result<[Shape; 5], Fail> {
    let rate = ThrottleSpec::parse("1/s")?;
    Ok([
        new_shape(Action::SuspendTenant, Some(3), 2 * HOUR),
        new_shape(Action::Set(Setting::ConnectionLimit(2)), None, HOUR),
        new_shape(
            Action::Set(Setting::ConnectionLimit(5)),
            Some(2),
            30 * MINUTE,
        ),
        new_shape(Action::Suspend, Some(4), 10 * MINUTE),
        new_shape(Action::Set(Setting::MessageRate(rate)), None, MINUTE),
    ])
}

/// A rule that fires at each match, or at so many an hour.
fn new_shape(action: Action, count: Option<u32>, duration: u64) -> Shape {
    let trigger = match count {
        Some(count) => Trigger::Threshold {
            count,
            period: HOUR,
        },
        None => Trigger::Immediate,
    };
    Shape {
        action,
        trigger,
        duration,
    }
}

/// A list of these texts.
fn texts(alloc: Global, texts: &[&str]) -> Result<Items<Text>, Fail> {
    let mut list = Vec::new(alloc);
    for text in texts {
        list.push(Text::of(alloc, text)?)?;
    }
    Ok(Items::of(list))
}

fn base(alloc: Global, shapes: &[Shape]) -> Result<PathBase, Fail> {
    let mut rules = Vec::new(alloc);
    for shape in shapes {
        rules.push(Rule {
            patterns: texts(alloc, &["4\\.7\\.1", "^421 "])?,
            action: shape.action,
            trigger: shape.trigger,
            duration: shape.duration,
        })?;
    }
    Ok(PathBase {
        options: Options::new(),
        rules: Items::of(rules),
    })
}

/// Adds a path of the site of this name.
fn add_path(
    alloc: Global,
    automaton: &mut Automaton,
    shapes: &[Shape],
    site: &str,
) -> Result<Option<u32>, Fail> {
    let base = base(alloc, shapes)?;
    let site = Site {
        name: Text::of(alloc, site)?,
        hosts: texts(alloc, &[site])?,
    };
    if automaton.len() >= 100 {
        return Ok(None);
    }
    Ok(Some(automaton.add_path(base, &site)?))
}

/// Three paths with these rules, the first two of one site.
fn three_paths(rt: &impl Abort, alloc: Global, shapes: &[Shape]) -> Result<Automaton, Fail> {
    let mut automaton = Automaton::new(alloc);
    for (site, number) in [("a", 0), ("a", 1), ("b", 2)] {
        assert_eq!(rt;
            add_path(alloc, &mut automaton, shapes, site)?,
            Some(number)
        );
    }
    Ok(automaton)
}

/// Notes a match by the reply to a message of a tenant, and says whether it fires; none where there is no such rule.
fn noted(
    alloc: Global,
    automaton: &mut Automaton,
    path: u32,
    rule: u32,
    t: u64,
    tenant: &str,
) -> Result<Option<bool>, Fail> {
    let name = name_of(alloc, tenant)?;
    if !automaton.has_rule(path, rule) {
        return Ok(None);
    }
    Ok(Some(automaton.note(path, rule, t, &name)?))
}

/// The name of a queue of a tenant; of none where the text is empty.
fn name_of(alloc: Global, tenant: &str) -> Result<QueueName, Fail> {
    if tenant.is_empty() {
        return Ok(QueueName::parse(alloc, "a.example")?);
    }
    let spelling = format!(in alloc; "{tenant}@a.example")?;
    Ok(QueueName::parse(alloc, spelling.as_str())?)
}

fn is_in_force(automaton: &Automaton, path: u32, rule: u32, t: u64) -> bool {
    automaton.has_rule(path, rule) && automaton.in_force(path, rule, t)
}

/// The limit of connections in force, and the key of the rate of messages.
fn limits(automaton: &Automaton, path: u32, t: u64) -> Option<(u32, u32)> {
    if path as usize >= automaton.len() {
        return None;
    }
    let limits = automaton.limits(path, t);
    Some((limits.connection_limit, limits.message_key))
}

fn is_halted(automaton: &Automaton, path: u32, t: u64) -> bool {
    (path as usize) < automaton.len() && automaton.halted(path, t)
}

fn is_covered(
    alloc: Global,
    automaton: &Automaton,
    path: u32,
    tenant: &str,
    t: u64,
) -> Result<bool, Fail> {
    let name = name_of(alloc, tenant)?;
    Ok((path as usize) < automaton.len() && automaton.covers(path, &name, t))
}

#[test]
fn three_an_hour_fire(rt: HostRuntime) -> Result<(), Fail> {
    let alloc = rt.alloc();
    let mut automaton = three_paths(&rt, alloc, &shapes()?)?;
    let matches = [
        (0, false),
        (10 * MINUTE, false),
        (60 * MINUTE, false),
        (61 * MINUTE, true),
        (61 * MINUTE + HOUR, false),
    ];
    for (t, fires) in matches {
        assert_eq!(rt;
            noted(alloc, &mut automaton, 0, 1, t, "shop")?,
            Some(fires),
            "{t}"
        );
    }
    assert_eq!(rt;
        automaton.next_end(61 * MINUTE + HOUR),
        Some(61 * MINUTE + 2 * HOUR)
    );
    let rows = [
        (0, "shop", 61 * MINUTE + HOUR, true),
        (1, "shop", 61 * MINUTE + HOUR, true),
        (2, "shop", 61 * MINUTE + HOUR, false),
        (1, "bank", 61 * MINUTE + HOUR, false),
        (1, "", 61 * MINUTE + HOUR, false),
        (0, "shop", 61 * MINUTE + 2 * HOUR - 1, true),
        (0, "shop", 61 * MINUTE + 2 * HOUR, false),
    ];
    for (path, tenant, t, wanted) in rows {
        assert_eq!(rt;
            is_covered(alloc, &automaton, path, tenant, t)?,
            wanted,
            "{path} {tenant} {t}"
        );
    }
    assert_eq!(rt; noted(alloc, &mut automaton, 3, 1, 4 * HOUR, "shop")?, None);
    assert_eq!(rt; noted(alloc, &mut automaton, 0, 6, 4 * HOUR, "shop")?, None);
    Ok(())
}

#[test]
fn patterns_are_found(rt: HostRuntime) -> Result<(), Fail> {
    let alloc = rt.alloc();
    let base = base(alloc, &shapes()?)?;
    let mut search = RegexSearch::new(alloc, Vec::new(alloc));
    let rows = [
        ("450 4.7.1 slow", true),
        ("421 bye", true),
        ("450 421 bye", false),
    ];
    for rule in base.rules.as_slice() {
        for (text, wanted) in rows {
            let Ok(matched) = Automaton::matches(&mut search, rule, text) else {
                return Err(Fail::new(format_args!("{text}")));
            };
            assert_eq!(rt; matched, wanted, "{text}");
        }
    }
    Ok(())
}

/// A match of the plain list, and whether it fired its rule.
#[derive(Clone, Copy)]
struct Matched {
    path: u32,
    rule: u32,
    at: u64,
    tenant: &'static str,
    fired: bool,
}

/// How many matches of a rule of a path are less than an hour old at a moment.
fn plain_count(list: &[Matched], path: u32, rule: u32, t: u64) -> u32 {
    let mut count = 0_u32;
    for matched in list {
        if matched.path == path && matched.rule == rule && t < matched.at.saturating_add(HOUR) {
            count = count.wrapping_add(1);
        }
    }
    count
}

/// How many of its matches an hour fire a rule, and how long it is then in force.
fn plain_rule(rule: u32) -> (u32, u64) {
    match rule {
        1 => (3, 2 * HOUR),
        2 => (1, HOUR),
        3 => (2, 30 * MINUTE),
        4 => (4, 10 * MINUTE),
        _ => (1, MINUTE),
    }
}

impl Matched {
    fn end(&self) -> u64 {
        let (_, duration) = plain_rule(self.rule);
        self.at.saturating_add(duration)
    }

    fn is_in_force(&self, t: u64) -> bool {
        self.fired && t < self.end()
    }
}

/// Whether a rule of a path has a firing in force.
fn plain_in_force(list: &[Matched], path: u32, rule: u32, t: u64) -> bool {
    let mut found = false;
    for matched in list {
        if matched.path == path && matched.rule == rule && matched.is_in_force(t) {
            found = true;
        }
    }
    found
}

/// Whether a firing at the site of a path holds back a tenant. Paths 0 and 1 are of one site.
fn plain_covers(list: &[Matched], path: u32, tenant: &str, t: u64) -> bool {
    let mut found = false;
    for matched in list {
        let is_same_site = (matched.path == 2) == (path == 2);
        if matched.rule == 1
            && is_same_site
            && matched.is_in_force(t)
            && !tenant.is_empty()
            && matched.tenant == tenant
        {
            found = true;
        }
    }
    found
}

/// The limit of connections in force, and the key of the rate of messages.
fn plain_limits(list: &[Matched], path: u32, t: u64) -> (u32, u32) {
    let limit = if plain_in_force(list, path, 3, t) {
        5
    } else if plain_in_force(list, path, 2, t) {
        2
    } else {
        32
    };
    (
        limit,
        if plain_in_force(list, path, 5, t) {
            5
        } else {
            0
        },
    )
}

/// The least end of the firings in force.
fn plain_next_end(list: &[Matched], t: u64) -> Option<u64> {
    let mut least: Option<u64> = None;
    for matched in list {
        let end = matched.end();
        let is_less = match least {
            Some(least) => end < least,
            None => true,
        };
        if matched.is_in_force(t) && is_less {
            least = Some(end);
        }
    }
    least
}

const TENANTS: [&str; 3] = ["shop", "bank", ""];

/// Notes a match on both, the automaton and the plain list.
fn note_one(
    rt: &impl Abort,
    alloc: Global,
    automaton: &mut Automaton,
    list: &mut Vec<Matched>,
    path: u32,
    rule: u32,
    t: u64,
    tenant: &'static str,
) -> Result<(), Fail> {
    let (count, _) = plain_rule(rule);
    let fired = plain_count(list, path, rule, t).wrapping_add(1) >= count;
    assert_eq!(rt;
        noted(alloc, automaton, path, rule, t, tenant)?,
        Some(fired)
    );
    list.push(Matched {
        path,
        rule,
        at: t,
        tenant,
        fired,
    })?;
    Ok(())
}

/// Asks both at a moment.
fn expect_same(
    rt: &impl Abort,
    alloc: Global,
    automaton: &Automaton,
    list: &[Matched],
    path: u32,
    t: u64,
) -> Result<(), Fail> {
    for rule in 1..6 {
        assert_eq!(rt;
            is_in_force(automaton, path, rule, t),
            plain_in_force(list, path, rule, t)
        );
    }
    for tenant in TENANTS {
        assert_eq!(rt;
            is_covered(alloc, automaton, path, tenant, t)?,
            plain_covers(list, path, tenant, t)
        );
    }
    assert_eq!(rt;
        limits(automaton, path, t),
        Some(plain_limits(list, path, t))
    );
    assert_eq!(rt;
        is_halted(automaton, path, t),
        plain_in_force(list, path, 4, t)
    );
    assert_eq!(rt; automaton.next_end(t), plain_next_end(list, t));
    Ok(())
}

#[test]
fn made_calls_of_an_automaton(rt: HostRuntime) -> Result<(), Fail> {
    let alloc = rt.alloc();
    let mut automaton = three_paths(&rt, alloc, &shapes()?)?;
    let mut list = Vec::new(alloc);
    let mut numbers = Numbers::from_seed(5);
    let mut t = 0_u64;
    for _ in 0..1000 {
        t = t.saturating_add(u64::from(numbers.below(300_000)));
        let path = numbers.below(3);
        let rule = numbers.below(5).wrapping_add(1);
        let tenant = TENANTS
            .get(numbers.below(3) as usize)
            .copied()
            .unwrap_or("");
        note_one(&rt, alloc, &mut automaton, &mut list, path, rule, t, tenant)?;
        expect_same(&rt, alloc, &automaton, &list, numbers.below(3), t)?;
    }
    Ok(())
}
