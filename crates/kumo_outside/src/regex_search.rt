//! Searches by the crate `regex`: the device behind the trait `Search` that the program uses.
//!
//! It keeps no compiled pattern, only the calls made, those that are to fail (for tests) and the faults counted. `main` makes
//! one and hands it to the top call. Each call answers what the grammar of `regex` says, or `Search` with one more fault
//! counted, or `Memory` without.
ghost use Rattle.std.specs.Prelude.{◌≡◌, ◌≢◌, ℕ, false, Some, Err, is_some, IfOk, IfErr, IfSome, IsTrue};
ghost use Rattle.kumo_outside.specs.Devices.{SearchState, is_failing, one_more};
ghost use Rattle.kumo_outside.specs.Search.{is_pattern, found, HasSearchCause, IsCompiledFrom};

use crate::search::{PATTERN_DEPTH_LIMIT, Search, SearchFault};
use regex::{Error, Regex, RegexBuilder};
use std::alloc::Global;
use std::marker::Model;

/// Searches by the crate `regex`, of which chosen calls fail. Each call compiles its pattern anew and keeps nothing
/// of it. `built` fails only for a pattern, where the call is not one of those chosen.
#[derive(Drop)]
pub struct RegexSearch {
    alloc: Global,
    failing: Vec<u64>,
    calls: u64,
    faults: u64,
}

impl Model for RegexSearch {
    ghost Value = { SearchState };

    ghost view = { λ s. record { failing = s.failing.items; calls = s.calls; faults = s.faults } };
}

impl RegexSearch {
    /// A search of which the k-th call fails for each number k in `failing`. Calls of `built` and of `found` are
    /// counted together, from 1 on.
    pub fn new(alloc: Global, failing: Vec<u64>) -> RegexSearch
        ensures { result ≡ record { failing = failing.items; calls = 0; faults = 0 } }
    {
        RegexSearch {
            alloc,
            failing,
            calls: 0,
            faults: 0,
        }
    }

    /// Counts one more call. Whether it is one that is to fail.
    fn is_called_to_fail(&mut self) -> bool
        ensures answer { result ≡ is_failing self.old.failing (one_more self.old.calls) }
        ensures counts { (self.new.calls ≡ one_more self.old.calls) × (self.new.failing ≡ self.old.failing) }
        ensures faults { self.new.faults ≡ self.old.faults }
    {
        self.calls = self.calls.saturating_add(1);
        self.failing.contains(&self.calls)
    }

    /// The answer of a call, whose fault is counted if it is one.
    fn counted(&mut self, answer: Result<bool, SearchFault>) -> Result<bool, SearchFault>
        ensures same { result ≡ answer }
        ensures cause { HasSearchCause self.old.faults self.new.faults answer }
        ensures uncounted { answer ≢ Err SearchFault.Search → self.new.faults ≡ self.old.faults }
        ensures counted { answer ≡ Err SearchFault.Search → self.new.faults ≡ one_more self.old.faults }
        ensures counts { (self.new.calls ≡ self.old.calls) × (self.new.failing ≡ self.old.failing) }
    {
        if answer == Err(SearchFault::Search) {
            self.faults = self.faults.saturating_add(1);
        }
        answer
    }
}

impl Search for RegexSearch {
    ghost seen = { λ s. record { faults = s.faults } };

    fn built(&mut self, pattern: &str) -> Result<bool, SearchFault>
        ensures right { IfOk result (λ is_one. is_one ≡ is_pattern pattern.now) }
        ensures cause { HasSearchCause self.old.faults self.new.faults result }
        ensures refused { is_failing self.old.failing (one_more self.old.calls) ≡ false
            → result ≡ Err SearchFault.Search → IsTrue (is_pattern pattern.now) }
        ensures fails { IsTrue (is_failing self.old.failing (one_more self.old.calls)) → result ≡ Err SearchFault.Search }
        ensures counts { (self.new.calls ≡ one_more self.old.calls) × (self.new.failing ≡ self.old.failing) }
        ensures uncounted { result ≢ Err SearchFault.Search → self.new.faults ≡ self.old.faults }
        ensures counted { result ≡ Err SearchFault.Search → self.new.faults ≡ one_more self.old.faults }
    {
        if self.is_called_to_fail() {
            return self.counted(Err(SearchFault::Search));
        }
        let answer = is_built(self.alloc, pattern);
        self.counted(answer)
    }

    fn found(&mut self, pattern: &str, text: &str) -> Result<bool, SearchFault>
        ensures right { IfOk result (λ is_found. found pattern.now text.now ≡ Some is_found) }
        ensures cause { HasSearchCause self.old.faults self.new.faults result }
        ensures fails { IsTrue (is_failing self.old.failing (one_more self.old.calls)) → result ≡ Err SearchFault.Search }
        ensures counts { (self.new.calls ≡ one_more self.old.calls) × (self.new.failing ≡ self.old.failing) }
        ensures uncounted { result ≢ Err SearchFault.Search → self.new.faults ≡ self.old.faults }
        ensures counted { result ≡ Err SearchFault.Search → self.new.faults ≡ one_more self.old.faults }
    {
        if self.is_called_to_fail() {
            return self.counted(Err(SearchFault::Search));
        }
        let answer = is_found(self.alloc, pattern, text);
        self.counted(answer)
    }
}

/// Whether the text is a pattern.
fn is_built(alloc: Global, pattern: &str) -> Result<bool, SearchFault>
    ensures right { IfOk result (λ is_one. is_one ≡ is_pattern pattern.now) }
    ensures refused { IfErr result (λ fault. fault ≡ SearchFault.Search → IsTrue (is_pattern pattern.now)) }
{
    match compiled(alloc, pattern)? {
        Some(_) => Ok(true),
        None => Ok(false),
    }
}

/// Whether the pattern is found in the text.
fn is_found(alloc: Global, pattern: &str, text: &str) -> Result<bool, SearchFault>
    ensures right { IfOk result (λ is_found. found pattern.now text.now ≡ Some is_found) }
{
    match compiled(alloc, pattern)? {
        Some(regex) => match regex.matcher(alloc) {
            Ok(mut matcher) => Ok(matcher.is_match(text)),
            Err(_) => Err(SearchFault::Memory),
        },
        None => Err(SearchFault::Search),
    }
}

/// The pattern, compiled; `None` where the text is no pattern. The engine refuses nothing but patterns.
fn compiled(alloc: Global, pattern: &str) -> Result<Option<Regex>, SearchFault>
    ensures read { IfOk result (λ regex. is_some regex ≡ is_pattern pattern.now) }
    ensures found { IfOk result (λ regex. IfSome regex (IsCompiledFrom pattern.now)) }
    ensures refused { IfErr result (λ fault. fault ≡ SearchFault.Search → IsTrue (is_pattern pattern.now)) }
{
    match RegexBuilder::new(pattern)
        .nest_limit(PATTERN_DEPTH_LIMIT)
        .build(alloc)
    {
        Ok(regex) => Ok(Some(regex)),
        Err(Error::Syntax(_)) => Ok(None),
        Err(Error::OutOfMemory) => Err(SearchFault::Memory),
        Err(Error::CompiledTooBig) => Err(SearchFault::Search),
        Err(Error::Internal) => Err(SearchFault::Search),
    }
}
