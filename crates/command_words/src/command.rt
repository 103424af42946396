//! The commands: what the program is asked to do, and the arguments that ask for it.
//!
//! The top call asks `command_of` once and does what it answers. A `Command` keeps references into the arguments and copies
//! nothing. There is no fault to tell apart: arguments that are no command give `None`, which prints `error: usage`.
ghost use Rattle.std.specs.Prelude.{◌≡◌, IfOk, IfSome, IsTrue, option_map, option_and_then};
ghost use Rattle.queue_name.specs.QueueName.{is_name};
ghost use Rattle.command_words.specs.Commands.{command_of, IsNamed, send, texts_of, question_in, question_about, name_asked, sending_in, workers_in, crew_in, load_in, given_moment, if_allowed};
ghost use Rattle.command_words.specs.SeenCommands.{read_as, seen_names, seen_question, seen_sending};
ghost use Rattle.command_words.specs.inside.Walk.{given_in};
ghost use Rattle.command_words.specs.inside.Verbs.{names_of, command_by};
ghost use Rattle.command_words.specs.Options.{options_in, number_in};

use crate::names::PolicyNames;
use crate::numbers::{GREATEST_LOAD, GREATEST_WORKERS, number_in};
use crate::options::{are_allowed, are_read, value_of};
use crate::verb::Verb;
use kumo_base::{LAST_MOMENT, Memory, Text};
use policy_core::UNSPECIFIED;
use queue_name::{NameParts, QueueName};
use std::alloc::Global;

/// What is asked about a queue's name and a source.
#[derive(Clone, Copy)]
pub struct Question<'a> {
    pub texts: PolicyNames<'a>,
    /// The parts of the queue's name. The domain is as it was written; it counts in lower case.
    pub parts: NameParts<'a>,
    /// `unspecified` where none is given. Nothing says that there is such a source.
    pub source: &'a str,
}

/// What is to be sent, and how.
#[derive(Clone, Copy)]
pub struct Sending<'a> {
    /// The name of the mail text.
    pub mail: &'a str,
    pub texts: PolicyNames<'a>,
    /// The name of the text of scripted peers.
    pub peers: Option<&'a str>,
    /// The name of the text of an administrator's orders.
    pub orders: Option<&'a str>,
    /// The horizon, in milliseconds since 1970.
    pub until: Option<u64>,
    /// The moment at which a clock that stands for the system's begins, in milliseconds since 1970.
    pub start: Option<u64>,
    /// The folder of the spool.
    pub spool: Option<&'a str>,
}

/// What the program is to do.
#[derive(Clone, Copy)]
pub enum Command<'a> {
    /// Check policy texts.
    Check(PolicyNames<'a>),
    /// Say what applies to a queue's name and a source.
    Explain(Question<'a>),
    /// Print the messages of the spool in a folder.
    Spool(Option<&'a str>),
    /// Send mail on one thread.
    Send(Sending<'a>),
    /// Send mail with so many threads.
    Crew(Sending<'a>, u32),
    /// Send a made load from a seed, of so many messages.
    Load(u64, u32),
}

impl<'a> Question<'a> {
    /// The name of the queue that is asked about.
    pub fn name(&self, alloc: Global) -> Result<QueueName, Memory>
        requires { IsTrue (is_name (seen_question self.now).name) }
        ensures { IfOk result (λ name. name ≡ (seen_question self.now).name) }
    {
        let domain = self.parts.domain.to_ascii_lowercase(alloc)?;
        let parts = NameParts {
            domain: domain.as_str(),
            ..self.parts
        };
        parts.to_name(alloc)
    }
}

/// The command that words are, if they are one.
///
/// | Command | Options, those that have to be given first |
/// |---|---|
/// | `check` | `--sources`, `--queues`, `--shaping`, `--mx` |
/// | `explain` | `--domain`; those of `check`, `--tenant`, `--campaign`, `--source` |
/// | `spool` | `--spool` |
/// | `send` | `--mail`; those of `check`, `--peers`, `--orders`, `--until`, `--start`, `--spool` |
/// | `crew` | `--mail`, `--workers`; those of `send` |
/// | `load` | `--seed`, `--count` |
///
/// The values of `--until` and `--start` are moments up to `LAST_MOMENT`, that of `--workers` is from 1 to
/// `GREATEST_WORKERS`, that of `--seed` fits 64 bits, and that of `--count` is from 1 to `GREATEST_LOAD`; each is written in 1
/// to 20 decimal digits. `--campaign`, `--tenant` and `--domain`, the domain in lower case, make the name of a queue.
#[tactic(auto, using(crate::proofs::CommandLemmas::command_is, crate::proofs::CommandLemmas::command_none), unfolding(crate::specs::Commands::command_of))]
pub fn command_of(words: &[Text]) -> Option<Command<'_>>
    ensures command { option_map read_as result ≡ command_of words.now }
    ensures named { IfSome result (λ command. IsNamed (read_as command)) }
{
    match words.split_first() {
        Some((word, options)) => match Verb::of(word.as_str()) {
            Some(verb) => command_with(verb, options),
            None => None,
        },
        None => None,
    }
}

/// The command of a verb and of words that should be options which it takes.
#[tactic(auto, using(crate::proofs::CommandLemmas::then_read))]
fn command_with(verb: Verb, options: &[Text]) -> Option<Command<'_>>
    ensures command { option_map read_as result
        ≡ option_and_then (λ os. if_allowed (names_of verb) os (command_by verb os)) (options_in options.now) }
    ensures named { IfSome result (λ command. IsNamed (read_as command)) }
{
    if are_read(options) && are_allowed(verb, options) {
        command_by(verb, options)
    } else {
        None
    }
}

/// The command of a verb and options that it takes.
fn command_by(verb: Verb, options: &[Text]) -> Option<Command<'_>>
    ensures command { option_map read_as result ≡ command_by verb (given_in options.now) }
    ensures named { IfSome result (λ command. IsNamed (read_as command)) }
{
    match verb {
        Verb::Check => Some(Command::Check(texts_of(options))),
        Verb::Explain => question_in(options),
        Verb::Spool => Some(Command::Spool(value_of(options, "--spool"))),
        Verb::Send => send_in(options),
        Verb::Crew => crew_in(options),
        Verb::Load => load_in(options),
    }
}

/// The names of policy texts among options.
fn texts_of(options: &[Text]) -> PolicyNames<'_>
    ensures { seen_names result ≡ texts_of (given_in options.now) }
{
    PolicyNames {
        sources: value_of(options, "--sources"),
        queues: value_of(options, "--queues"),
        shaping: value_of(options, "--shaping"),
        mx: value_of(options, "--mx"),
    }
}

/// The question of options, where they have a domain and make a name.
#[tactic(auto, unfolding(crate::specs::Commands::question_in))]
fn question_in(options: &[Text]) -> Option<Command<'_>>
    ensures command { option_map read_as result ≡ question_in (given_in options.now) }
    ensures named { IfSome result (λ command. IsNamed (read_as command)) }
{
    match value_of(options, "--domain") {
        Some(domain) => {
            let asked = question_of(options, domain);
            if asked.parts.is_name_in_lower_case() {
                Some(Command::Explain(asked))
            } else {
                None
            }
        }
        None => None,
    }
}

/// What options ask about a domain.
fn question_of<'a>(options: &'a [Text], domain: &'a str) -> Question<'a>
    ensures { seen_question result ≡ question_about (given_in options.now) (name_asked (given_in options.now) domain.now) }
{
    Question {
        texts: texts_of(options),
        parts: NameParts {
            campaign: value_of(options, "--campaign"),
            tenant: value_of(options, "--tenant"),
            domain,
        },
        source: value_of(options, "--source").unwrap_or(UNSPECIFIED),
    }
}

/// The command to send on one thread.
fn send_in(options: &[Text]) -> Option<Command<'_>>
    ensures command { option_map read_as result ≡ option_map send (sending_in (given_in options.now)) }
    ensures named { IfSome result (λ command. IsNamed (read_as command)) }
{
    match sending_in(options) {
        Some(sending) => Some(Command::Send(sending)),
        None => None,
    }
}

/// The command to send with more threads.
#[tactic(auto, unfolding(crate::specs::Commands::crew_in))]
fn crew_in(options: &[Text]) -> Option<Command<'_>>
    ensures command { option_map read_as result ≡ crew_in (given_in options.now) }
    ensures named { IfSome result (λ command. IsNamed (read_as command)) }
{
    match (sending_in(options), workers_in(options)) {
        (Some(sending), Some(workers)) => Some(Command::Crew(sending, workers)),
        _ => None,
    }
}

/// What options say is sent, where they have a mail text and each moment is one.
#[tactic(auto, unfolding(crate::specs::Commands::sending_in))]
fn sending_in(options: &[Text]) -> Option<Sending<'_>>
    ensures { option_map seen_sending result ≡ sending_in (given_in options.now) }
{
    let mail = value_of(options, "--mail")?;
    let until = given_moment(value_of(options, "--until"))?;
    let start = given_moment(value_of(options, "--start"))?;
    Some(Sending {
        mail,
        texts: texts_of(options),
        peers: value_of(options, "--peers"),
        orders: value_of(options, "--orders"),
        until,
        start,
        spool: value_of(options, "--spool"),
    })
}

/// A moment, where a text is given; none where the text is no moment.
fn given_moment(text: Option<&str>) -> Option<Option<u64>>
    ensures { result ≡ given_moment (option_map (λ s. s.now) text.entry) }
{
    match text {
        Some(text) => number_in(0, LAST_MOMENT, text).map(Some),
        None => Some(None),
    }
}

/// The number of workers.
#[tactic(auto, unfolding(crate::specs::Commands::workers_in))]
fn workers_in(options: &[Text]) -> Option<u32>
    ensures { result ≡ workers_in (given_in options.now) }
{
    small_number(GREATEST_WORKERS, value_of(options, "--workers"))
}

/// The load of a seed and a count.
#[tactic(auto, unfolding(crate::specs::Commands::load_in))]
fn load_in(options: &[Text]) -> Option<Command<'_>>
    ensures command { option_map read_as result ≡ load_in (given_in options.now) }
    ensures named { IfSome result (λ command. IsNamed (read_as command)) }
{
    let seed = number_in(0, u64::MAX, value_of(options, "--seed")?)?;
    let count = small_number(GREATEST_LOAD, value_of(options, "--count"))?;
    Some(Command::Load(seed, count))
}

/// The number from 1 to a greatest one that a text is, where one is given.
fn small_number(greatest: u32, text: Option<&str>) -> Option<u32>
    ensures { result ≡ option_and_then (number_in 1 greatest) (option_map (λ s. s.now) text.entry) }
{
    let number = number_in(1, u64::from(greatest), text?)?;
    Some(number as u32)
}
