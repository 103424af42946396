//! What the core sees of the world outside: texts, sinks, links, linkers and searches as traits with
//! counted faults, their implementations in memory, over the system and by the crate `regex`, and the
//! session that a linker tells.
//!
//! The crates that talk to the world depend on this one; docs/ARCHITECTURE.md lists them. A trait's
//! contract says what a call told and what it counted, so that a caller can be held to "this answer
//! comes only where the outside failed".
#![tactic(auto)]

mod file_texts;
pub mod laws;
mod link;
mod linker;
mod mem_sink;
mod mem_texts;
mod regex_search;
mod search;
mod session;
mod sink;
mod stdout_sink;
mod text_reader;
mod texts;

pub use file_texts::FileTexts;
pub use link::Link;
pub use linker::Linker;
pub use mem_sink::MemSink;
pub use mem_texts::MemTexts;
pub use regex_search::RegexSearch;
pub use search::{PATTERN_DEPTH_LIMIT, Search, SearchFault};
pub use session::Session;
pub use sink::{Sink, put_all};
pub use stdout_sink::StdoutSink;
pub use text_reader::{ReadTextFault, TEXT_LIMIT, read_text};
pub use texts::Texts;
