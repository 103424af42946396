//! What `explain` prints: what applies to a queue's name and a source.
ghost use Rattle.std.specs.Prelude.{◌≡◌, ◌++◌, IfOk, OnOk, decimal};
ghost use Rattle.policy_core.specs.Layers.{settings_of};
ghost use Rattle.policy_core.specs.Site.{site_of};
ghost use Rattle.shaping_merge.specs.ExplainText.{line};
ghost use Rattle.policy_texts.specs.Explained.{explanation, settings_lines, path_lines, number_text};

use itoa::Buffer;
use kumo_base::{Memory, Text};
use policy_core::{Policy, Settings};
use queue_name::QueueName;
use queues_policy::settings_for;
use shaping_merge::{explain_text, path_base, push_line, site};
use std::alloc::Global;

/// What applies to the messages of a queue that leave by a source, in lines of a name, a blank and a value: `queue`, `pool`,
/// `max_age`, `retry_interval`, `max_retry_interval` in milliseconds, and then the lines of the path to the domain's site.
/// `none` stands for no value.
#[tactic(auto, unfolding(crate::specs::Explained::explanation))]
pub fn explain_queue(
    alloc: Global,
    policy: &Policy,
    name: &QueueName,
    source: &str,
) -> Result<Text, Memory>
    ensures { IfOk result (λ text. text ≡ explanation policy.now name.now source.now) }
{
    let settings = settings_for(alloc, &policy.queues, name)?;
    let mut text = settings_lines(alloc, name, &settings)?;
    push_path(alloc, policy, name.domain.as_str(), source, &mut text)?;
    Ok(text)
}

/// Appends what applies on the path of a domain's site and a source.
fn push_path(
    alloc: Global,
    policy: &Policy,
    domain: &str,
    source: &str,
    text: &mut Text,
) -> Result<(), Memory>
    ensures { OnOk result (text.new ≡ text.old ++ path_lines policy.now (site_of policy.now domain.now) source.now) }
{
    let site = site(alloc, policy, domain)?;
    let base = path_base(alloc, policy, &site, source)?;
    explain_text(alloc, &base, &site, source, text)
}

/// The lines of a queue's settings.
fn settings_lines(alloc: Global, name: &QueueName, settings: &Settings) -> Result<Text, Memory>
    ensures { IfOk result (λ text. text ≡ settings_lines name.now settings.now) }
{
    let mut spelled = Text::new(alloc);
    name.text_into(alloc, &mut spelled)?;
    let mut text = Text::new(alloc);
    push_line(&mut text, "queue", spelled.as_str())?;
    push_line(&mut text, "pool", settings.pool.as_str())?;
    push_number_line(&mut text, "max_age", settings.max_age)?;
    push_number_line(&mut text, "retry_interval", settings.retry_interval)?;
    push_optional(&mut text, "max_retry_interval", settings.max_retry_interval)?;
    Ok(text)
}

/// Appends a line of a name and a number.
fn push_number_line(text: &mut Text, name: &str, number: u64) -> Result<(), Memory>
    ensures { OnOk result (text.new ≡ text.old ++ line name.now (decimal number)) }
{
    let mut buffer = Buffer::new();
    push_line(text, name, buffer.format(number))
}

/// Appends a line of a name and a number, where there is one.
fn push_optional(text: &mut Text, name: &str, number: Option<u64>) -> Result<(), Memory>
    ensures { OnOk result (text.new ≡ text.old ++ line name.now (number_text number)) }
{
    match number {
        Some(number) => push_number_line(text, name, number),
        None => push_line(text, name, "none"),
    }
}
