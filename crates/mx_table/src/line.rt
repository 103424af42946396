//! One line of an MX table: its words, and the row that they are.
//!
//! `lib.rt` calls `row_of` for each line that is not empty. It keeps nothing, and answers a row, none for a comment or a line
//! of blanks, the word of what is wrong with the line, or `Memory`.
ghost use Rattle.std.specs.Prelude.{◌≡◌, ◌<◌, nat_lt, ◌==◌, ◌||◌, length, map, option_map, Ok, Some, IfOk, IfErr, IsTrue, string_bytes};
ghost use Rattle.std.specs.List.{list_all};
ghost use Rattle.std.specs.Str.{str_to_ascii_lowercase};
ghost use Rattle.policy_core.specs.Names.{is_host_name};
ghost use Rattle.mx_table.specs.MxText.{is_space, words_of, without_dot, name_of, row_named, row_of_words, is_comment, row_of};
ghost use Rattle.mx_table.specs.inside.Causes.{IsCauseOf, IsBadName};

use crate::fault::RowFault;
use crate::push;
use crate::row::Row;
use kumo_base::Memory;
use policy_core::is_host_name;
use policy_fault::Why;
use std::alloc::Global;

/// The row that a line is. A comment, and a line without words, is none.
#[tactic(auto, unfolding(crate::specs::MxText::row_of))]
pub fn row_of(alloc: Global, line: &[u8]) -> Result<Option<Row>, RowFault>
    ensures ok { IfOk result (λ found. row_of line.now ≡ option_map Ok found) }
    ensures err { IfErr result (λ fault. IsCauseOf fault (row_of line.now)) }
{
    if is_comment(line) {
        return Ok(None);
    }
    let words = words(alloc, line)?;
    row_of_words(alloc, words.as_slice())
}

/// Whether the first byte of a line is `#`.
fn is_comment(line: &[u8]) -> bool
    ensures { result ≡ is_comment line.now }
{
    matches!(line, [b'#', ..])
}

/// The words of a line in their order.
fn words(alloc: Global, line: &[u8]) -> Result<Vec<&[u8]>, Memory>
    ensures { IfOk result (λ words. map (λ word. word.now) words.items ≡ words_of line.now) }
{
    Ok(
        line.split(|b| *b == b' ' || *b == b'\t')
            .filter(|word| !word.is_empty())
            .collect(alloc)?,
    )
}

/// The row that words are: a domain and its hosts.
fn row_of_words(alloc: Global, words: &[&[u8]]) -> Result<Option<Row>, RowFault>
    ensures ok { IfOk result (λ found. row_of_words (map (λ word. word.now) words.now) ≡ option_map Ok found) }
    ensures err { IfErr result (λ fault. IsCauseOf fault (row_of_words (map (λ word. word.now) words.now))) }
{
    let Some((domain, hosts)) = words.split_first() else {
        return Ok(None);
    };
    if hosts.is_empty() {
        return Err(RowFault::Refused(Why::NoHost));
    }
    match row_named(alloc, domain, hosts) {
        Ok(row) => Ok(Some(row)),
        Err(fault) => Err(fault),
    }
}

/// The row of a domain and its hosts, each as a word.
fn row_named(alloc: Global, domain: &[u8], hosts: &[&[u8]]) -> Result<Row, RowFault>
    requires { 0 < length hosts.now }
    ensures ok { IfOk result (λ row. row_named (name_of domain.now) (map (λ word. name_of word.now) hosts.now) ≡ Ok row) }
    ensures err { IfErr result (λ fault. IsCauseOf fault (Some
        (row_named (name_of domain.now) (map (λ word. name_of word.now) hosts.now)))) }
{
    let domain = name_of(alloc, domain)?;
    let hosts = names_of(alloc, hosts)?;
    Ok(Row::of(domain, hosts))
}

/// The names that words are.
fn names_of(alloc: Global, words: &[&[u8]]) -> Result<Vec<String>, RowFault>
    ensures names { IfOk result (λ names. map string_bytes names.items ≡ map (λ word. name_of word.now) words.now) }
    ensures good { IfOk result (λ _. IsTrue (list_all is_host_name (map (λ word. name_of word.now) words.now))) }
    ensures err { IfErr result (λ fault. IsBadName fault (list_all is_host_name (map (λ word. name_of word.now) words.now))) }
{
    let mut names = Vec::new(alloc);
    for word in words {
        match name_of(alloc, word) {
            Ok(name) => push(&mut names, name)?,
            Err(fault) => return Err(fault),
        }
    }
    Ok(names)
}

/// The name that a word is: without one `.` at its end, and in lower case.
#[tactic(auto, unfolding(crate::specs::MxText::name_of))]
fn name_of(alloc: Global, word: &[u8]) -> Result<String, RowFault>
    ensures name { IfOk result (λ name. string_bytes name ≡ name_of word.now) }
    ensures good { IfOk result (λ _. IsTrue (is_host_name (name_of word.now))) }
    ensures err { IfErr result (λ fault. IsBadName fault (is_host_name (name_of word.now))) }
{
    let Ok(word) = std::str::from_utf8(without_dot(word)) else {
        return Err(RowFault::Refused(Why::BadName));
    };
    good_name(lower_case(alloc, word)?)
}

/// The name, where a host may have it.
fn good_name(name: String) -> Result<String, RowFault>
    ensures ok { IfOk result (λ kept. (kept ≡ name) × IsTrue (is_host_name (string_bytes name))) }
    ensures err { IfErr result (λ fault. IsBadName fault (is_host_name (string_bytes name))) }
{
    if !is_host_name(name.as_str()) {
        return Err(RowFault::Refused(Why::BadName));
    }
    Ok(name)
}

/// A word without one `.` at its end.
fn without_dot(word: &[u8]) -> &[u8]
    ensures { result.now ≡ without_dot word.now }
{
    match word.last() {
        Some(b'.') => {
            let (name, _) = word.split_at(word.len() - 1);
            name
        }
        _ => word,
    }
}

/// A text in ASCII lower case.
fn lower_case(alloc: Global, text: &str) -> Result<String, Memory>
    ensures { IfOk result (λ name. string_bytes name ≡ str_to_ascii_lowercase text.now) }
{
    Ok(text.to_ascii_lowercase(alloc)?)
}
