//! The header of an area: what its bytes say, and the bytes that say it.
ghost use Rattle.std.specs.Prelude.{◌≡◌, ◌<◌, ◌≤◌, ◌^◌, length, drop};
ghost use Rattle.spool_log.specs.Area.{header_rest};
ghost use Rattle.spool_log.specs.Head.{start_of, by_length, first_wrong, magic, version_in, version_by};
ghost use Rattle.spool_log.specs.inside.Steps.{SaysFront};

/// What the header of an area says.
#[derive(Clone, Copy, Debug, PartialEq, Eq)]
pub struct Header {
    /// The version of the format: 1 or 2. Every area that is made has 2.
    pub version: u8,
    /// One more, modulo 2^64, than that of the area that it took the place of.
    pub generation: u64,
}

/// What the first 17 bytes of an area say.
#[derive(Clone, Copy, Debug, PartialEq, Eq)]
pub enum Start {
    /// The area is no log: it has at most one byte, or its first gate is not open.
    Blank,
    /// The least offset at which an open area's header is wrong, or the area's length where that is too short.
    Wrong(u64),
    /// A header.
    Headed(Header),
}

// Bytes 1 to 7 of a version.
const MAGIC_1: [u8; 7] = [75, 83, 80, 1, 0, 0, 0];

const MAGIC_2: [u8; 7] = [75, 83, 80, 2, 0, 0, 0];

/// What the first bytes of an area say; 17 of them are enough.
pub fn start_in(bytes: &[u8]) -> Start
    ensures value { result ≡ start_of bytes.now }
    ensures front { SaysFront bytes.now result }
{
    let start = start_by(bytes);
    start
}

// The same, as a function of any numbers.
fn start_by(bytes: &[u8]) -> Start
    ensures { result ≡ start_of bytes.now }
{
    match bytes {
        [1, _, ..] => match wrong_at(bytes) {
            Some(at) => Start::Wrong(at),
            None => header_at(bytes),
        },
        _ => Start::Blank,
    }
}

// The first of the bytes 1 to 7 that is wrong or is not there.
fn wrong_at(bytes: &[u8]) -> Option<u64>
    requires { 0 < length bytes.now }
    ensures { result ≡ first_wrong (magic (version_in bytes.now)) 1 (drop 1 bytes.now) }
{
    let (_, rest) = bytes.split_at(1);
    if version_at(bytes) == 1 {
        wrong_from(&MAGIC_1, rest)
    } else {
        wrong_from(&MAGIC_2, rest)
    }
}

// The version that byte 4 is judged as.
fn version_at(bytes: &[u8]) -> u8
    ensures { result ≡ version_in bytes.now }
{
    match bytes {
        [_, _, _, _, 1, ..] => 1,
        _ => 2,
    }
}

// The offset of the first byte that is not the wanted one, or at which there is none.
fn wrong_from(wants: &[u8], bytes: &[u8]) -> Option<u64>
    requires { length wants.now < 2 ^ 32 }
    ensures { result ≡ first_wrong wants.now 1 bytes.now }
{
    let mut left = wants;
    let mut here = bytes;
    let mut at = 1;
    while let [want, more @ ..] = left {
        let [byte, rest @ ..] = here else {
            return Some(at);
        };
        if byte != want {
            return Some(at);
        }
        left = more;
        here = rest;
        at += 1;
    }
    None
}

// The header, where all of it and one byte more are there.
fn header_at(bytes: &[u8]) -> Start
    ensures { result ≡ by_length bytes.now }
{
    match bytes {
        [_, _, _, _, _, _, _, _, a, b, c, d, e, f, g, h, _, ..] => Start::Headed(Header {
            version: version_at(bytes),
            generation: u64::from_be_bytes([*a, *b, *c, *d, *e, *f, *g, *h]),
        }),
        _ => Start::Wrong(bytes.len() as u64),
    }
}

/// The header's bytes but its gate, in version 2.
pub fn rest_of_header(generation: u64) -> [u8; 15]
    ensures { result ≡ header_rest (record { version = 2; generation = generation }) }
{
    let [a, b, c, d, e, f, g, h] = generation.to_be_bytes();
    [75, 83, 80, 2, 0, 0, 0, a, b, c, d, e, f, g, h]
}
