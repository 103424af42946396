//! The names of sites, compared piece by piece: no name is made.
ghost use Rattle.std.specs.Prelude.{◌≡◌, false, ◌∷◌, ◌++◌, ℕ, List, bytes_eq, MatchOption};
ghost use Rattle.policy_core.specs.Site.{site_name, joined_by_bars, with_bars};

use kumo_base::Text;

/// Whether a text is the name of the site of a domain with these hosts. `rollup` says whether the domain shares its site with
/// others of the same hosts.
pub(crate) fn is_site_name(text: &str, rollup: bool, domain: &str, hosts: &[Text]) -> bool
    ensures { result ≡ bytes_eq (site_name rollup domain.now hosts.now) text.now }
{
    if rollup {
        return is_joined(text.as_bytes(), hosts);
    }
    match behind_domain(text.as_bytes(), domain) {
        Some(rest) => is_joined(rest, hosts),
        None => false,
    }
}

/// Whether bytes are texts with `|` between.
fn is_joined(bytes: &[u8], texts: &[Text]) -> bool
    ensures { result ≡ bytes_eq (joined_by_bars texts.now) bytes.now }
{
    match texts.split_first() {
        Some((first, more)) => match behind(bytes, first.as_str().as_bytes()) {
            Some(rest) => has_bars(rest, more),
            None => false,
        },
        None => bytes.is_empty(),
    }
}

/// Whether bytes are texts with `|` before each.
fn has_bars(bytes: &[u8], texts: &[Text]) -> bool
    ensures { result ≡ bytes_eq (with_bars texts.now) bytes.now }
{
    let mut rest = bytes;
    for text in texts {
        match behind_bar(rest, text.as_str()) {
            Some(more) => rest = more,
            None => return false,
        }
    }
    rest.is_empty()
}

/// What stands behind a domain and `=`, where bytes begin so.
fn behind_domain<'n>(bytes: &'n [u8], domain: &str) -> Option<&'n [u8]>
    ensures { MatchOption result ((tail : List ℕ) → bytes_eq (domain.now ++ 61 ∷ tail) bytes.now ≡ false)
        (λ rest. (tail : List ℕ) → bytes_eq (domain.now ++ 61 ∷ tail) bytes.now ≡ bytes_eq tail rest.now) }
{
    behind(behind(bytes, domain.as_bytes())?, b"=")
}

/// What stands behind `|` and a text, where bytes begin so.
fn behind_bar<'n>(bytes: &'n [u8], text: &str) -> Option<&'n [u8]>
    ensures { MatchOption result ((tail : List ℕ) → bytes_eq (124 ∷ (text.now ++ tail)) bytes.now ≡ false)
        (λ rest. (tail : List ℕ) → bytes_eq (124 ∷ (text.now ++ tail)) bytes.now ≡ bytes_eq tail rest.now) }
{
    behind(behind(bytes, b"|")?, text.as_bytes())
}

/// What stands behind other bytes, where bytes begin with them.
fn behind<'n>(bytes: &'n [u8], front: &[u8]) -> Option<&'n [u8]>
    ensures { MatchOption result ((tail : List ℕ) → bytes_eq (front.now ++ tail) bytes.now ≡ false)
        (λ rest. (tail : List ℕ) → bytes_eq (front.now ++ tail) bytes.now ≡ bytes_eq tail rest.now) }
{
    bytes.strip_prefix(front)
}
