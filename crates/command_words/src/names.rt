//! The names of policy texts.

/// The names of the policy texts, of those that are given. One that is not given stands for the empty text.
#[derive(Clone, Copy)]
pub struct PolicyNames<'a> {
    /// Sources and pools.
    pub sources: Option<&'a str>,
    /// Settings of queues.
    pub queues: Option<&'a str>,
    /// Shaping of paths.
    pub shaping: Option<&'a str>,
    /// The mail exchangers of domains.
    pub mx: Option<&'a str>,
}
