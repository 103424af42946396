//! Texts and bytes that are borrowed: the text that bytes are, whether they are digits, and what stands before and behind a
//! mark.
ghost use Rattle.std.specs.Prelude.{◌≡◌, ◌<◌, ◌==◌, true, false, MatchOption, option_map};
ghost use Rattle.std.specs.Char.{is_ascii_digit};
ghost use Rattle.std.specs.List.{list_all, list_any, before_first, after_first};
ghost use Rattle.kumo_base.specs.Utf8.{utf8_in};

/// The text that bytes are, where they are UTF-8.
pub fn utf8_in(bytes: &[u8]) -> Option<&str>
    ensures { option_map (λ s. s.now) result ≡ utf8_in bytes.now }
{
    match std::str::from_utf8(bytes) {
        Ok(text) => Some(text),
        Err(_) => None,
    }
}

/// Whether all bytes are digits.
pub fn all_digits(bytes: &[u8]) -> bool
    ensures { result ≡ list_all is_ascii_digit bytes.now }
{
    bytes.iter().all(|b| b.is_ascii_digit())
}

/// What stands before and behind the first mark, an ASCII character, where the text has one.
pub fn around_first(text: &str, mark: char) -> Option<(&str, &str)>
    requires { mark < 128 }
    ensures { MatchOption result (list_any (λ b. b == mark) text.now ≡ false)
        (λ p. (list_any (λ b. b == mark) text.now ≡ true)
        × (before_first (λ b. b == mark) text.now ≡ p.0.now)
        × (after_first (λ b. b == mark) text.now ≡ p.1.now)) }
{
    text.split_once(mark)
}
