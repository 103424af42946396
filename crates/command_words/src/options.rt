//! Options among words. They are read again for each question that is asked of them, so that nothing is kept.
//!
//! `command.rt` asks whether words are options, which value one has, and whether a command may have them. A few words are
//! read a few times, and no memory is taken, so that a command line of any length is refused without one.
ghost use Rattle.std.specs.Prelude.{◌≡◌, ◌<◌, ℕ, true, false, IfSome, MatchOption, is_some, option_map, length};
ghost use Rattle.std.specs.List.{list_any, before_first, after_first};
ghost use Rattle.command_words.specs.Options.{is_equals, is_value, options_in, value_of, are_allowed};
ghost use Rattle.command_words.specs.inside.Walk.{front, front_behind, front_of, given_in};
ghost use Rattle.command_words.specs.inside.Verbs.{names_of};
ghost use Rattle.command_words.specs.inside.Seen.{seen_front};

use crate::verb::Verb;
use kumo_base::{Text, around_first};

/// An option.
#[derive(Clone, Copy)]
struct GivenOption<'a> {
    /// With the two dashes.
    name: &'a str,
    value: &'a str,
}

/// Whether words are options and nothing else.
pub(crate) fn are_read(words: &[Text]) -> bool
    ensures { result ≡ is_some (options_in words.now) }
{
    let mut rest = words;
    while let Some((_, behind)) = first_option(rest) {
        rest = behind;
    }
    rest.is_empty()
}

/// The value of an option, where it is given.
pub(crate) fn value_of<'a>(words: &'a [Text], name: &str) -> Option<&'a str>
    ensures { option_map (λ value. value.now) result ≡ value_of name.now (given_in words.now) }
{
    let mut rest = words;
    while let Some((option, behind)) = first_option(rest) {
        if option.name == name {
            return Some(option.value);
        }
        rest = behind;
    }
    None
}

/// Whether a command may have these options: it takes each, and none is given twice.
///
/// An option that is not taken ends this at once, as one that is given again does. So the search for a second one begins at
/// most once for each option that a command takes, however many words there are.
pub(crate) fn are_allowed(verb: Verb, words: &[Text]) -> bool
    ensures { result ≡ are_allowed (names_of verb) (given_in words.now) }
{
    let mut rest = words;
    while let Some((option, behind)) = first_option(rest) {
        if !verb.takes(option.name) || value_of(behind, option.name).is_some() {
            return false;
        }
        rest = behind;
    }
    true
}

/// The option in front of words, and the words behind it. None where there is no word, or where the first ones are no option.
fn first_option(words: &[Text]) -> Option<(GivenOption<'_>, &[Text])>
    ensures { option_map seen_front result ≡ front words.now }
{
    match words {
        [] => None,
        [word, rest @ ..] => match around_first(word.as_str(), '=') {
            Some((name, value)) => with_value(name, value, rest),
            None => with_next(word.as_str(), rest),
        },
    }
}

/// An option whose value is the next word.
fn with_next<'a>(name: &'a str, words: &'a [Text]) -> Option<(GivenOption<'a>, &'a [Text])>
    ensures { option_map seen_front result ≡ front_behind name.now words.now }
{
    match words {
        [] => None,
        [value, rest @ ..] => {
            if is_value(value.as_str()) {
                with_value(name, value.as_str(), rest)
            } else {
                None
            }
        }
    }
}

/// An option and the words behind it, where its value is not empty.
fn with_value<'a>(
    name: &'a str,
    value: &'a str,
    rest: &'a [Text],
) -> Option<(GivenOption<'a>, &'a [Text])>
    ensures { option_map seen_front result ≡ front_of name.now value.now rest.now }
{
    if value.is_empty() {
        None
    } else {
        Some((GivenOption { name, value }, rest))
    }
}

/// Whether a word may be a value by itself: not empty, and not beginning with `-`.
fn is_value(word: &str) -> bool
    ensures { result ≡ is_value word.now }
{
    match word.as_bytes() {
        [] => false,
        [first, ..] => *first != b'-',
    }
}
