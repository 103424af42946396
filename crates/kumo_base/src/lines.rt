//! The numbered lines of a text: of mail, of orders, of peers, of a log.
ghost use Rattle.std.specs.Prelude.{◌≡◌, ◌+◌, ◌^◌, ◌<◌, ◌≤◌, ◌==◌, [], ◌∷◌, if◌then◌else◌, length, position, IfSome, MatchOption};
ghost use Rattle.std.specs.Str.Lines.{lines, strip_carriage_return};
ghost use Rattle.kumo_base.specs.Lines.{left, Numbering};

use std::marker::Model;

/// The lines that are not empty, each with its number from 1. A line ends at LF, and one CR directly before it is
/// dropped; what stands after the last LF is a line where it is not empty. Every line counts in the numbering.
#[derive(Drop)]
pub struct Lines<'a> {
    rest: &'a [u8],
    number: u64,
}

impl<'a> Model for Lines<'a> {
    ghost Value = { Numbering };

    ghost view = { λ l. record { number = l.number; rest = l.rest.now } };

    ghost invariant = { λ l. l.number + length l.rest.now < 2 ^ 64 };
}

impl<'a> Lines<'a> {
    /// The lines of a text.
    pub fn of(text: &'a [u8]) -> Lines<'a>
        requires { length text.now < 2 ^ 63 }
        ensures { result ≡ record { number = 1; rest = text.now } }
    {
        Lines {
            rest: text,
            number: 1,
        }
    }

    /// The next line that is not empty, with its number. After `None` there is none.
    pub fn next_line(&mut self) -> Option<(u64, &'a [u8])>
        ensures { MatchOption result (left self.old ≡ [] × (left self.new ≡ []))
            (λ found. left self.old ≡ (found.0, found.1.now) ∷ left self.new) }
    {
        while let Some((line, more)) = cut_line(self.rest) {
            let number = self.number;
            self.number += 1;
            self.rest = more;
            if !line.is_empty() {
                return Some((number, line));
            }
        }
        let last = self.rest;
        if last.is_empty() {
            return None;
        }
        let number = self.number;
        self.rest = &[];
        Some((number, last))
    }
}

/// The first line and what follows its line feed, where there is a line feed.
fn cut_line(text: &[u8]) -> Option<(&[u8], &[u8])>
    ensures { MatchOption result (lines text.now ≡ (if length text.now == 0 then [] else text.now ∷ []))
        (λ p. (lines text.now ≡ p.0.now ∷ lines p.1.now) × (length p.1.now < length text.now)) }
{
    match line_end(text) {
        Some(i) => {
            let (front, back) = text.split_at(i);
            let (_, rest) = back.split_at(1);
            Some((without_return(front), rest))
        }
        None => None,
    }
}

/// Where the first line feed stands.
fn line_end(text: &[u8]) -> Option<usize>
    ensures value { result ≡ position (λ b. b == 10) text.now }
    ensures within { IfSome result (λ i. i < length text.now) }
{
    text.iter().position(|b| *b == b'\n')
}

/// A line without the carriage return at its end.
fn without_return(line: &[u8]) -> &[u8]
    ensures { result.now ≡ strip_carriage_return line.now }
{
    match line.last() {
        Some(b'\r') => {
            let (front, _) = line.split_at(line.len() - 1);
            front
        }
        _ => line,
    }
}
