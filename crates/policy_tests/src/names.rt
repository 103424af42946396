//! Names of queues, criteria and messages.
use kumo_base::Text;
use queue_name::{Criteria, Message, QueueName};
use std::alloc::Global;
use std::test::Fail;

/// The spelling of a name.
fn spelled(alloc: Global, name: &QueueName) -> Result<String, Fail> {
    let mut out = Text::new(alloc);
    name.text_into(alloc, &mut out)?;
    Ok(String::from_str(alloc, out.as_str())?)
}

/// The spelling of a copy of the name that a text is read as, or why it is none.
fn shown(alloc: Global, text: &str) -> Result<String, Fail> {
    match QueueName::parse(alloc, text) {
        Ok(name) => spelled(alloc, &name.copy(alloc)?),
        Err(fault) => Ok(format!(in alloc; "{fault:?}")?),
    }
}

/// Texts, and what they are read as.
fn name_rows() -> [(&'static str, &'static str); 10] {
    [
        ("c", "c"),
        ("b@c", "b@c"),
        ("a:b@c", "a:b@c"),
        ("a:@c", "a:@c"),
        ("A@b", "A@b"),
        ("", "Empty"),
        ("@c", "Empty"),
        ("a:b@c!d", "Routing(5)"),
        ("t@C", "BadByte(2)"),
        ("a\n@c", "BadByte(1)"),
    ]
}

#[test]
fn names_are_read(rt: HostRuntime) -> Result<(), Fail> {
    for (text, wanted) in name_rows() {
        assert_eq!(rt; shown(rt.alloc(), text)?.as_str(), wanted, "{text}");
    }
    Ok(())
}

/// Criteria of a tenant alone.
fn of_tenant(tenant: Text) -> Criteria {
    Criteria {
        campaign: None,
        tenant: Some(tenant),
        domain: None,
    }
}

/// Criteria of a domain alone.
fn of_domain(domain: Text) -> Criteria {
    Criteria {
        campaign: None,
        tenant: None,
        domain: Some(domain),
    }
}

/// Whether a copy of criteria matches the name that a text spells.
fn matches(alloc: Global, criteria: &Criteria, text: &str) -> Result<bool, Fail> {
    let name = QueueName::parse(alloc, text)?;
    Ok(criteria.copy(alloc)?.matches(&name))
}

#[test]
fn criteria_match_names(rt: HostRuntime) -> Result<(), Fail> {
    let domain = of_domain(Text::of(rt.alloc(), "c")?);
    let tenant = of_tenant(Text::of(rt.alloc(), "b")?);
    for (name, by_domain, by_tenant) in [("a:b@c", true, true), ("a:@c", true, false)] {
        assert_eq!(rt; matches(rt.alloc(), &domain, name)?, by_domain, "at {name}");
        assert_eq!(rt; matches(rt.alloc(), &tenant, name)?, by_tenant, "at {name}");
    }
    Ok(())
}

/// A message of these parts, with an empty body.
fn message(sender: Text, recipient: Text, name: QueueName, body: Text) -> Message {
    Message {
        id: 1,
        created: 0,
        sender,
        recipient,
        name,
        body,
    }
}

/// Whether a message from a sender to `u@A.example`, in the queue of this name, is proper.
fn is_proper(alloc: Global, sender: &str, name: &str) -> Result<bool, Fail> {
    let sender = Text::of(alloc, sender)?;
    let recipient = Text::of(alloc, "u@A.example")?;
    let name = QueueName::parse(alloc, name)?;
    let message = message(sender, recipient, name, Text::new(alloc));
    Ok(message.copy(alloc)?.is_proper())
}

#[test]
fn messages_are_proper(rt: HostRuntime) -> Result<(), Fail> {
    let rows = [
        ("", "a.example", true),
        ("s@b.example", "x:y@a.example", true),
        ("s", "a.example", false),
        ("", "b.example", false),
    ];
    for (sender, name, wanted) in rows {
        assert_eq!(rt;
            is_proper(rt.alloc(), sender, name)?,
            wanted,
            "at {sender} in {name}"
        );
    }
    Ok(())
}
