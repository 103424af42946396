//! Reading a whole text, or enough of it to know that it is too long.
ghost use Rattle.std.specs.Prelude.{◌≡◌, ◌≤◌, ◌<◌, ◌^◌, IfOk, IfSome};
ghost use Rattle.kumo_base.specs.Causes.{Rose};
ghost use Rattle.kumo_outside.specs.Reading.{IsReadUpTo};

use crate::texts::Texts;
use kumo_base::{Bytes, Memory};
use std::alloc::Global;

/// The most bytes of a text.
pub const TEXT_LIMIT: usize = 268_435_456;

/// The most bytes of one read.
const PIECE: usize = 65_536;

/// Why a text was not read.
#[derive(Clone, Copy, Debug, PartialEq, Eq)]
pub enum ReadTextFault {
    /// A read failed.
    ReadFault,
    /// There was no memory.
    Memory,
}

/// Reads the text until a read answers 0, or until it has more than `limit` bytes.
pub fn read_text<T: Texts>(
    alloc: Global,
    texts: &mut T,
    name: &str,
    limit: usize,
) -> Result<Bytes, ReadTextFault>
    requires { limit < 2 ^ 32 }
    ensures text { IfSome ((T.seen texts.old).told name.now) (λ text. IfOk result (λ read. IsReadUpTo limit text read)) }
    ensures told { (T.seen texts.new).told ≡ (T.seen texts.old).told }
    ensures cause { result ≡ Err ReadTextFault.ReadFault → Rose (T.seen texts.old).faults (T.seen texts.new).faults }
    ensures later { (T.seen texts.old).faults ≤ (T.seen texts.new).faults }
{
    let mut bytes = Bytes::new(alloc);
    let mut buffer = [0u8; PIECE];
    loop {
        let at = bytes.as_slice().len();
        if at > limit {
            return Ok(bytes);
        }
        let count = match texts.read(name, at as u64, &mut buffer) {
            Ok(count) => count,
            Err(_) => return Err(ReadTextFault::ReadFault),
        };
        if count == 0 {
            return Ok(bytes);
        }
        match bytes.append(&buffer[..count]) {
            Ok(()) => (),
            Err(Memory) => return Err(ReadTextFault::Memory),
        }
    }
}
