//! A spool of one message: its bytes after each call, what opening says of changed bytes, and the older version.
use kumo_base::Text;
use kumo_disk::MemDisk;
use queue_name::{Message, QueueName};
use spool_format::Deferral;
use spool_store::Store;
use std::alloc::Global;
use std::test::Fail;

/// The header of area 0 in version 2.
const HEADER: &str = "014b5350020000000000000000000001";

/// The record that holds the message.
const HELD: &str = "01010000004400000000000000000000000000000001000000000000000000000\
                    00b7340622e6578616d706c650000000b7540612e6578616d706c65000000000\
                    0000000000000026869";

/// A message with this id and body.
pub(crate) fn message(alloc: Global, id: u128, body: &str) -> Result<Message, Fail> {
    Ok(Message {
        id,
        created: 0,
        sender: Text::of(alloc, "s@b.example")?,
        recipient: Text::of(alloc, "u@a.example")?,
        name: QueueName::parse(alloc, "a.example")?,
        body: Text::of(alloc, body)?,
    })
}

/// Bytes in hexadecimal.
fn hexadecimal(alloc: Global, bytes: &[u8]) -> Result<String, Fail> {
    let mut text = String::new(alloc);
    for byte in bytes {
        let digits = format!(in alloc; "{byte:02x}")?;
        text.push_str(digits.as_str())?;
    }
    Ok(text)
}

/// The bytes of area 0 after the calls: the message is held, deferred where asked for, and settled where asked for.
fn bytes_after(alloc: Global, defers: bool, settles: bool) -> Result<String, Fail> {
    let Ok((mut store, _)) = Store::open(alloc, MemDisk::new(alloc)) else {
        return Ok(format!(in alloc; "not opened")?);
    };
    let message = message(alloc, 1, "hi")?;
    if !is_held(&mut store, &message) {
        return Ok(format!(in alloc; "not held")?);
    }
    if defers && !is_deferred(&mut store, message.id) {
        return Ok(format!(in alloc; "not deferred")?);
    }
    if settles && !is_settled(&mut store, message.id) {
        return Ok(format!(in alloc; "not settled")?);
    }
    let disk = store.into_disk();
    hexadecimal(alloc, disk.bytes(0))
}

/// Whether the message is not pending yet and is held.
pub(crate) fn is_held(store: &mut Store<MemDisk>, message: &Message) -> bool {
    message.is_proper() && !store.contains(message.id) && store.hold(message).is_ok()
}

/// Whether room is made for a deferral, and the message deferred.
pub(crate) fn is_deferred(store: &mut Store<MemDisk>, id: u128) -> bool {
    if store.len() < 1 || store.make_room(1).is_err() || !store.contains(id) {
        return false;
    }
    let deferral = Deferral {
        id,
        failures: 1,
        due: 1_200_000,
    };
    store.defer(deferral).is_ok()
}

/// Whether the message is pending and is settled.
pub(crate) fn is_settled(store: &mut Store<MemDisk>, id: u128) -> bool {
    store.contains(id) && store.settle(id).is_ok()
}

#[test]
fn bytes_of_a_spool(rt: HostRuntime) -> Result<(), Fail> {
    let alloc = rt.alloc();
    let held = format!(in alloc; "{HEADER}{HELD}00")?;
    let deferred = format!(in alloc;
        "{HEADER}{HELD}01030000001c00000000000000000000000000000001000000010000000000124f8000"
    )?;
    let settled = format!(in alloc;
        "{HEADER}{HELD}0102000000100000000000000000000000000000000100"
    )?;
    assert_eq!(rt; bytes_after(alloc, false, false)?.as_str(), held.as_str());
    assert_eq!(rt;
        bytes_after(alloc, true, false)?.as_str(),
        deferred.as_str()
    );
    assert_eq!(rt; bytes_after(alloc, false, true)?.as_str(), settled.as_str());
    Ok(())
}

/// The value of a digit in hexadecimal.
fn digit(byte: u8) -> u8 {
    if byte >= b'a' {
        byte.wrapping_sub(b'a').wrapping_add(10)
    } else {
        byte.wrapping_sub(b'0')
    }
}

/// The bytes that a text spells in hexadecimal.
fn bytes_of(alloc: Global, text: &str) -> Result<Vec<u8>, Fail> {
    let mut bytes = Vec::new(alloc);
    let mut first = None;
    for byte in text.as_bytes() {
        let value = digit(*byte);
        first = match first {
            None => Some(value.wrapping_mul(16)),
            Some(high) => {
                bytes.push(value.wrapping_add(high))?;
                None
            }
        };
    }
    Ok(bytes)
}

/// What opening answers of these areas, and what they then are.
fn opened(alloc: Global, first: &str, second: &str) -> Result<String, Fail> {
    let disk = MemDisk::of(alloc, bytes_of(alloc, first)?, bytes_of(alloc, second)?);
    match Store::open(alloc, disk) {
        Ok((store, kept)) => {
            let pending = kept.len();
            let disk = store.into_disk();
            let long = disk.bytes(0).len();
            let second = hexadecimal(alloc, disk.bytes(1))?;
            Ok(format!(in alloc; "{pending} pending, {long} bytes, {second}")?)
        }
        Err((fault, _)) => Ok(format!(in alloc; "{fault:?}")?),
    }
}

/// The message's record without its gate and its kind.
fn behind_kind() -> &'static str {
    match HELD.get(4..) {
        Some(rest) => rest,
        None => "",
    }
}

/// A text so many times over.
fn repeated(alloc: Global, text: &str, times: usize) -> Result<String, Fail> {
    let mut all = String::new(alloc);
    for _ in 0..times {
        all.push_str(text)?;
    }
    Ok(all)
}

/// The message's spool with another end.
fn ending(alloc: Global, end: &str) -> Result<String, Fail> {
    Ok(format!(in alloc; "{HEADER}{HELD}{end}")?)
}

#[test]
fn damaged_spools(rt: HostRuntime) -> Result<(), Fail> {
    let alloc = rt.alloc();
    let whole = ending(alloc, "00")?;
    let again = ending(alloc, HELD)?;
    let strange = ending(alloc, "0102000000100000000000000000000000000000000200")?;
    let other_kind = format!(in alloc; "{HEADER}0109{}00", behind_kind())?;
    assert_eq!(rt;
        opened(alloc, "014b53500200000000000000000000", "")?.as_str(),
        "Damaged(0, 15)"
    );
    assert_eq!(rt;
        opened(alloc, ending(alloc, "")?.as_str(), "")?.as_str(),
        "Damaged(0, 16)"
    );
    assert_eq!(rt;
        opened(alloc, other_kind.as_str(), "")?.as_str(),
        "Damaged(0, 16)"
    );
    assert_eq!(rt;
        opened(alloc, format!(in alloc; "{again}00")?.as_str(), "")?.as_str(),
        "Damaged(0, 90)"
    );
    assert_eq!(rt;
        opened(alloc, strange.as_str(), "")?.as_str(),
        "Damaged(0, 90)"
    );
    assert_eq!(rt;
        opened(alloc, whole.as_str(), whole.as_str())?.as_str(),
        "Damaged(1, 8)"
    );
    assert_eq!(rt;
        opened(alloc, "0101010101010101010101010101010101010101", "")?.as_str(),
        "Damaged(0, 1)"
    );
    Ok(())
}

#[test]
fn sound_spools(rt: HostRuntime) -> Result<(), Fail> {
    let alloc = rt.alloc();
    let ones = repeated(alloc, "01", 100)?;
    let torn = ending(alloc, format!(in alloc; "05{ones}")?.as_str())?;
    let sevens = repeated(alloc, "07", 500)?;
    let closed = format!(in alloc; "00{sevens}")?;
    let older = format!(in alloc; "014b5350010000000000000000000001{HELD}00")?;
    let newer = format!(in alloc; "1 pending, 91 bytes, 014b5350020000000000000000000002{HELD}00")?;
    assert_eq!(rt;
        opened(alloc, torn.as_str(), "")?.as_str(),
        "1 pending, 191 bytes, "
    );
    assert_eq!(rt; opened(alloc, older.as_str(), "")?.as_str(), newer.as_str());
    assert_eq!(rt;
        opened(alloc, closed.as_str(), "")?.as_str(),
        "0 pending, 17 bytes, "
    );
    Ok(())
}

/// Whether a message with a body of 60,000 bytes is held.
fn holds_long_body(alloc: Global, store: &mut Store<MemDisk>, id: u128) -> Result<bool, Fail> {
    let body = repeated(alloc, "x", 60_000)?;
    let message = message(alloc, id, body.as_str())?;
    Ok(is_held(store, &message))
}

/// Two messages of 60,000 bytes are held and settled; then the other area has the next generation and no record.
#[test]
fn long_area_is_written_anew(rt: HostRuntime) -> Result<(), Fail> {
    let alloc = rt.alloc();
    let Ok((mut store, _)) = Store::open(alloc, MemDisk::new(alloc)) else {
        return Err(Fail::new(format_args!("not opened")));
    };
    assert!(rt; holds_long_body(alloc, &mut store, 1)?);
    assert!(rt; holds_long_body(alloc, &mut store, 2)?);
    assert!(rt; is_settled(&mut store, 1));
    assert!(rt; is_settled(&mut store, 2));
    assert!(rt; store.wants_compact());
    assert!(rt; store.compact().is_ok());
    assert!(rt; !store.wants_compact());
    let disk = store.into_disk();
    assert_eq!(rt; disk.bytes(0).len(), 120_205);
    assert_eq!(rt;
        hexadecimal(alloc, disk.bytes(1))?.as_str(),
        "014b535002000000000000000000000200"
    );
    Ok(())
}

/// Three messages are held and one of them is settled: the ids of the others come in the order of holding.
#[test]
fn pending_ids_are_walked(rt: HostRuntime) -> Result<(), Fail> {
    let alloc = rt.alloc();
    let Ok((mut store, _)) = Store::open(alloc, MemDisk::new(alloc)) else {
        return Err(Fail::new(format_args!("not opened")));
    };
    for id in [7, 2, 5] {
        let message = message(alloc, id, "hi")?;
        assert!(rt; is_held(&mut store, &message));
    }
    assert!(rt; is_settled(&mut store, 2));
    let mut text = String::new(alloc);
    for id in store.pending() {
        write!(text, "{id} ")?;
    }
    assert_eq!(rt; text.as_str(), "7 5 ");
    Ok(())
}
