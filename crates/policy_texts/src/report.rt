//! What `check` prints of policy texts that are read: the keys that have no effect, and `ok`.
ghost use Rattle.std.specs.Prelude.{◌≡◌, IfOk, map, flat_map, string_bytes};
ghost use Rattle.policy_texts.specs.Report.{IsCheckReport, ignored_line, ended_line};

use kumo_base::Memory;
use policy_fault::Ignored;
use std::alloc::Global;

/// The report on keys without effect: a line for each, in byte order of the lines, and then `ok`.
pub fn report_keys(alloc: Global, keys: &[Ignored]) -> Result<String, Memory>
    ensures { IfOk result (λ text. IsCheckReport keys.now (string_bytes text)) }
{
    let mut lines = lines_of(alloc, keys)?;
    lines.sort()?;
    let mut text = joined_lines(alloc, lines.as_slice())?;
    text.push_str("ok\n")?;
    Ok(text)
}

/// The lines of keys.
fn lines_of(alloc: Global, keys: &[Ignored]) -> Result<Vec<String>, Memory>
    ensures { IfOk result (λ lines. map string_bytes lines.items ≡ map ignored_line keys.now) }
{
    let mut lines = Vec::new(alloc);
    for key in keys {
        lines.push(ignored_line(alloc, key)?)?;
    }
    Ok(lines)
}

/// The line of a key, without its line feed.
fn ignored_line(alloc: Global, key: &Ignored) -> Result<String, Memory>
    ensures { IfOk result (λ line. string_bytes line ≡ ignored_line key.now) }
{
    let mut line = String::from_str(alloc, "ignored ")?;
    line.push_str(key.file.name())?;
    line.push_str(" ")?;
    line.push_str(key.table.as_str())?;
    line.push_str(" ")?;
    line.push_str(key.key.as_str())?;
    Ok(line)
}

/// The lines, each with a line feed behind it.
fn joined_lines(alloc: Global, lines: &[String]) -> Result<String, Memory>
    ensures { IfOk result (λ text. string_bytes text ≡ flat_map ended_line (map string_bytes lines.now)) }
{
    let mut text = String::new(alloc);
    for line in lines {
        text.push_str(line.as_str())?;
        text.push_str("\n")?;
    }
    Ok(text)
}
