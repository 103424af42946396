//! Texts in memory.
ghost use Rattle.std.specs.Prelude.{◌≡◌, ◌<◌, ◌≤◌, ◌&&◌, not, ℕ, List, Option, length, option_map, IfOk, IfSome, OnOk, OnErr, is_ok, is_some};
ghost use Rattle.kumo_base.specs.Causes.{HasCause};
ghost use Rattle.kumo_outside.specs.Content.{Places};
ghost use Rattle.kumo_outside.specs.Devices.{TextShelf, text_at, is_failing, one_more};

use crate::texts::Texts;
use kumo_base::{Bytes, Failed, Text};
use std::marker::Model;

/// Named texts in memory, of which chosen reads fail.
#[derive(Drop)]
pub struct MemTexts {
    texts: Vec<(Text, Bytes)>,
    failing: Vec<u64>,
    calls: u64,
    faults: u64,
}

impl Model for MemTexts {
    ghost Value = { TextShelf };

    ghost view = { λ s. record { texts = s.texts.items; failing = s.failing.items; calls = s.calls; faults = s.faults } };
}

impl MemTexts {
    /// Texts of which the k-th `read` fails for each number k in `failing`. Of two texts of one name the first counts.
    pub fn new(texts: Vec<(Text, Bytes)>, failing: Vec<u64>) -> MemTexts
        ensures { result ≡ record { texts = texts.items; failing = failing.items; calls = 0; faults = 0 } }
    {
        MemTexts {
            texts,
            failing,
            calls: 0,
            faults: 0,
        }
    }
}

impl Texts for MemTexts {
    ghost seen = { λ s. record { told = λ name. text_at s.texts name; faults = s.faults } };

    fn read(&mut self, name: &str, at: u64, buffer: &mut [u8]) -> Result<usize, Failed>
        requires { 0 < length buffer.old }
        ensures bound { IfOk result (λ n. n ≤ length buffer.new) }
        ensures bytes { IfSome (text_at self.old.texts name.now) (λ text. IfOk result (λ n. Places text at n buffer.new)) }
        ensures same { self.new.texts ≡ self.old.texts }
        ensures cause { HasCause self.old.faults self.new.faults result }
        ensures uncounted { OnOk result (self.new.faults ≡ self.old.faults) }
        ensures counted { OnErr result (self.new.faults ≡ one_more self.old.faults) }
        ensures reads { is_ok result
            ≡ (not (is_failing self.old.failing (one_more self.old.calls)) && is_some (text_at self.old.texts name.now)) }
        ensures counts { (self.new.calls ≡ one_more self.old.calls) × (self.new.failing ≡ self.old.failing) }
    {
        self.calls = self.calls.saturating_add(1);
        if self.failing.contains(&self.calls) {
            self.faults = self.faults.saturating_add(1);
            return Err(Failed);
        }
        match find_text(&self.texts, name) {
            Some(text) => Ok(place(text, at, buffer)),
            None => {
                self.faults = self.faults.saturating_add(1);
                Err(Failed)
            }
        }
    }
}

/// The first text of that name.
fn find_text<'a>(texts: &'a [(Text, Bytes)], name: &str) -> Option<&'a [u8]>
    ensures { option_map (λ b. b.now) result ≡ text_at texts.now name.now }
{
    for (found, bytes) in texts {
        if found.is_same(name) {
            return Some(bytes.as_slice());
        }
    }
    None
}

/// Places the bytes of a text from `at` on, as many as there is room for.
fn place(text: &[u8], at: u64, buffer: &mut [u8]) -> usize
    requires { 0 < length buffer.old }
    ensures bound { result ≤ length buffer.new }
    ensures bytes { Places text.now at result buffer.new }
{
    if at >= text.len() as u64 {
        return 0;
    }
    let (_, rest) = text.split_at(at as usize);
    let count = rest.len().min(buffer.len());
    let (piece, _) = rest.split_at(count);
    buffer[..count].copy_from_slice(piece);
    count
}
