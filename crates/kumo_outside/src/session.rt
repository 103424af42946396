//! What went over one link, as a linker tells it.
use kumo_base::{Bytes, Text};

/// One link's bytes both ways.
#[derive(Drop)]
pub struct Session {
    /// The host that the link was opened to.
    pub host: Text,
    /// The source that it was opened from.
    pub source: Text,
    /// The bytes that the client sent.
    pub sent: Bytes,
    /// The bytes that the client got.
    pub got: Bytes,
    /// Whether the last call met the end of the link.
    pub ended: bool,
    /// The faults that the link counted.
    pub faults: u64,
    /// How often each of the host's eight keys had been used when the link was opened: greet, ehlo, mail, rcpt, data,
    /// body, rset and quit.
    pub uses: [u32; 8],
}
