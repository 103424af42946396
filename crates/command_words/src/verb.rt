//! The first words of commands, and the options that each takes.
ghost use Rattle.std.specs.Prelude.{◌≡◌, bytes_eq};
ghost use Rattle.std.specs.List.{list_any};
ghost use Rattle.command_words.specs.Commands.{names_of_texts, names_of_name, names_of_mail};
ghost use Rattle.command_words.specs.inside.Verbs.{names_of, verb_of};

/// What a command begins with.
#[derive(Clone, Copy)]
pub(crate) enum Verb {
    Check,
    Explain,
    Spool,
    Send,
    Crew,
    Load,
}

impl Verb {
    /// The verb that a word is, if it is one.
    pub(crate) fn of(word: &str) -> Option<Verb>
        ensures { result ≡ verb_of word.now }
    {
        match word {
            "check" => Some(Verb::Check),
            "explain" => Some(Verb::Explain),
            "spool" => Some(Verb::Spool),
            "send" => Some(Verb::Send),
            "crew" => Some(Verb::Crew),
            "load" => Some(Verb::Load),
            _ => None,
        }
    }

    /// Whether a command takes an option of this name.
    pub(crate) fn takes(self, name: &str) -> bool
        ensures { result ≡ list_any (λ known. bytes_eq name.now known) (names_of self) }
    {
        match self {
            Verb::Check => is_of_texts(name),
            Verb::Explain => is_of_texts(name) || is_of_name(name),
            Verb::Spool => name == "--spool",
            Verb::Send => is_of_texts(name) || is_of_sending(name),
            Verb::Crew => is_of_texts(name) || is_of_sending(name) || name == "--workers",
            Verb::Load => name == "--seed" || name == "--count",
        }
    }
}

/// Whether an option names a policy text.
fn is_of_texts(name: &str) -> bool
    ensures { result ≡ list_any (λ known. bytes_eq name.now known) names_of_texts }
{
    name == "--sources" || name == "--queues" || name == "--shaping" || name == "--mx"
}

/// Whether an option is a part of a queue's name, or a source.
fn is_of_name(name: &str) -> bool
    ensures { result ≡ list_any (λ known. bytes_eq name.now known) names_of_name }
{
    name == "--domain" || name == "--tenant" || name == "--campaign" || name == "--source"
}

/// Whether an option says what is sent, until when and from where.
fn is_of_sending(name: &str) -> bool
    ensures { result ≡ list_any (λ known. bytes_eq name.now known) names_of_mail }
{
    name == "--mail"
        || name == "--peers"
        || name == "--orders"
        || name == "--until"
        || name == "--start"
        || name == "--spool"
}
