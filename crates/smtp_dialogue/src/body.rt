//! Sends a body as the lines that DATA wants (RFC 5321 section 4.5.2), with no copy of it.
ghost use Rattle.std.specs.Prelude.{◌≡◌, ◌<◌, ◌≤◌, ◌++◌, ◌∷◌, ℕ, List, length, position, MatchResult};
ghost use Rattle.smtp_dialogue.specs.Body.{body_lines, stuffed, wire_line, wire};
ghost use Rattle.smtp_dialogue.specs.inside.FirstLine.{is_line_end, line_length, behind_end};
ghost use Rattle.smtp_dialogue.specs.inside.Asking.{Sends, FailsToSend};

use crate::send::{send_all, send_three};
use kumo_base::Failed;
use kumo_outside::Link;

/// Sends the lines of a body and the line `.`. After `Failed` a prefix of them was sent, and not all.
pub(crate) fn send_body<L: Link>(link: &mut L, body: &str) -> Result<(), Failed>
    ensures opening { (L.seen link.new).opening ≡ (L.seen link.old).opening }
    ensures sends { MatchResult result
        (λ _. Sends (wire body.now) (L.seen link.old) (L.seen link.new))
        (λ _. FailsToSend (wire body.now) (L.seen link.old) (L.seen link.new)) }
{
    let mut rest = body.as_bytes();
    while !rest.is_empty() {
        let (line, behind) = first_line(rest);
        send_line(link, line)?;
        rest = behind;
    }
    send_all(link, b".\r\n")
}

/// Sends one line with its end, and a `.` before it where it begins with one.
fn send_line<L: Link>(link: &mut L, line: &[u8]) -> Result<(), Failed>
    ensures opening { (L.seen link.new).opening ≡ (L.seen link.old).opening }
    ensures sends { MatchResult result
        (λ _. Sends (wire_line line.now) (L.seen link.old) (L.seen link.new))
        (λ _. FailsToSend (wire_line line.now) (L.seen link.old) (L.seen link.new)) }
{
    send_three(link, stuffing(line), line, b"\r\n")
}

/// What is sent before a line: a `.` where the line begins with one, and else nothing.
fn stuffing(line: &[u8]) -> &[u8]
    ensures { result.now ++ line.now ≡ stuffed line.now }
{
    match line {
        [b'.', ..] => b".",
        _ => b"",
    }
}

/// The first line, and what stands behind its end.
#[tactic(auto, using(crate::proofs::Bodies::first_line_is))]
fn first_line(bytes: &[u8]) -> (&[u8], &[u8])
    requires { 0 < length bytes.now }
    ensures lines { body_lines bytes.now ≡ result.0.now ∷ body_lines result.1.now }
    ensures less { length result.1.now < length bytes.now }
{
    let (line, behind) = bytes.split_at(line_length(bytes));
    (line, behind_end(behind))
}

/// How many bytes stand before the first line end.
#[tactic(auto, using(crate::proofs::Bodies::line_length_found, crate::proofs::Bodies::line_length_within))]
fn line_length(bytes: &[u8]) -> usize
    ensures value { result ≡ line_length bytes.now }
    ensures within { result ≤ length bytes.now }
{
    match line_end_at(bytes) {
        Some(at) => at,
        None => bytes.len(),
    }
}

/// The place of the first carriage return or line feed.
fn line_end_at(bytes: &[u8]) -> Option<usize>
    ensures { result ≡ position is_line_end bytes.now }
{
    bytes.iter().position(|b| *b == b'\r' || *b == b'\n')
}

/// The bytes behind the line end that these begin with.
fn behind_end(bytes: &[u8]) -> &[u8]
    ensures { result.now ≡ behind_end bytes.now }
{
    match bytes {
        [] => bytes,
        [b'\r', b'\n', rest @ ..] => rest,
        [_, rest @ ..] => rest,
    }
}
