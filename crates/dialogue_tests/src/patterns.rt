//! Patterns that are found in texts, and searches of which chosen calls fail.
use kumo_outside::{RegexSearch, Search};
use std::alloc::Global;
use std::test::Fail;

/// What a search that fails at no call answers whether a pattern is found in a text.
fn found(alloc: Global, pattern: &str, text: &str) -> Result<String, Fail> {
    let mut search = RegexSearch::new(alloc, Vec::new(alloc));
    Ok(format!(in alloc; "{:?}", search.found(pattern, text))?)
}

/// A pattern, a text, and whether it is found there.
fn found_rows() -> [(&'static str, &'static str, &'static str); 10] {
    [
        ("slow down", "421 please slow down!", "Ok(true)"),
        ("slow down", "421 Slow Down", "Ok(false)"),
        ("(?i)slow down", "421 Slow Down", "Ok(true)"),
        ("^451", "451 later", "Ok(true)"),
        ("^451", "421 see 451", "Ok(false)"),
        ("busy$", "", "Ok(false)"),
        ("", "", "Ok(true)"),
        ("(", "a", "Err(Search)"),
        ("(?=a)", "a", "Err(Search)"),
        ("(?:a{1000}){1000}", "a", "Err(Search)"),
    ]
}

#[test]
fn patterns_are_found_in_texts(rt: HostRuntime) -> Result<(), Fail> {
    for (pattern, text, wanted) in found_rows() {
        assert_eq!(rt;
            found(rt.alloc(), pattern, text)?.as_str(),
            wanted,
            "at {pattern} in {text}"
        );
    }
    Ok(())
}

/// What a search answers to four calls, of which the one of this number fails.
fn four_calls(alloc: Global, failing: u64) -> Result<String, Fail> {
    let mut search = RegexSearch::new(alloc, vec![in alloc; failing]?);
    let first = search.built("a");
    let second = search.found("a", "abc");
    let third = search.built("a");
    let fourth = search.found("a", "bcd");
    Ok(format!(in alloc; "{first:?} {second:?} {third:?} {fourth:?}")?)
}

#[test]
fn chosen_searches_fail(rt: HostRuntime) -> Result<(), Fail> {
    let first = four_calls(rt.alloc(), 1)?;
    assert_eq!(rt; first.as_str(), "Err(Search) Ok(true) Ok(true) Ok(false)");
    let second = four_calls(rt.alloc(), 2)?;
    assert_eq!(rt; second.as_str(), "Ok(true) Err(Search) Ok(true) Ok(false)");
    Ok(())
}
