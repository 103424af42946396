//! Which rules match a reply.
ghost use Rattle.std.specs.Prelude.{◌≡◌, IfOk};
ghost use Rattle.kumo_outside.specs.Search.{HasSearchCause};
ghost use Rattle.automation_rules.specs.Matches.{is_matched};

use crate::automaton::Automaton;
use kumo_outside::{Search, SearchFault};
use policy_core::Rule;

impl Automaton {
    /// Whether some pattern of a rule is found in the text of a reply. Patterns are those of the crate `regex`. It answers
    /// `SearchFault::Search` only where the search's count of faults rose.
    pub fn matches<S: Search>(search: &mut S, rule: &Rule, text: &str) -> Result<bool, SearchFault>
        ensures right { IfOk result (λ matched. matched ≡ is_matched text.now rule.now) }
        ensures cause { HasSearchCause (S.seen search.old).faults (S.seen search.new).faults result }
    {
        for pattern in rule.patterns.as_slice() {
            if search.found(pattern.as_str(), text)? {
                return Ok(true);
            }
        }
        Ok(false)
    }
}
