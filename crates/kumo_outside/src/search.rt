//! What builds search patterns and searches texts for them.
ghost use Rattle.std.specs.Prelude.{◌≡◌, Some, IfOk};
ghost use Rattle.kumo_outside.specs.Search.{SearchSeen, is_pattern, found, HasSearchCause};

/// How deep groups, repetitions and classes of a search pattern may nest.
pub const PATTERN_DEPTH_LIMIT: u32 = 250;

/// Why a search has no answer.
#[derive(Clone, Copy, Debug, PartialEq, Eq)]
pub enum SearchFault {
    /// The engine refused the pattern, as one whose compiled form is too large, or a text that is no pattern was to
    /// be found. The count of faults has risen.
    Search,
    /// There was no memory.
    Memory,
}

/// Something that knows search patterns and finds them in texts. A pattern is one of the crate `regex`.
pub trait Search {
    /// The faults counted so far. The count never falls.
    ghost seen: { Self → SearchSeen };

    /// Whether the text is a search pattern. One that nests deeper than `PATTERN_DEPTH_LIMIT` is none.
    fn built(&mut self, pattern: &str) -> Result<bool, SearchFault>
        ensures right { IfOk result (λ is_one. is_one ≡ is_pattern pattern.now) }
        ensures cause { HasSearchCause (seen self.old).faults (seen self.new).faults result };

    /// Whether the pattern is found in the text. `SearchFault::Search` is also the answer where `pattern` is none.
    fn found(&mut self, pattern: &str, text: &str) -> Result<bool, SearchFault>
        ensures right { IfOk result (λ is_found. found pattern.now text.now ≡ Some is_found) }
        ensures cause { HasSearchCause (seen self.old).faults (seen self.new).faults result };
}
