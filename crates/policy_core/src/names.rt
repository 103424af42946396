//! The names that may stand in policy texts.
ghost use Rattle.std.specs.Prelude.{◌≡◌};
ghost use Rattle.std.specs.List.{list_all};
ghost use Rattle.policy_core.specs.Names.{is_source_name, is_source_name_byte, is_host_name, is_host_name_byte};

/// The most bytes of the name of a source, a pool, a provider, a host or a domain of shaping.
pub const POLICY_NAME_LIMIT: usize = 255;

/// Whether a source, a pool or a provider may have this name: 1 to 255 bytes, no control byte among them and no `>`.
pub fn is_source_name(name: &str) -> bool
    ensures { result ≡ is_source_name name.now }
{
    !name.is_empty() && name.len() <= POLICY_NAME_LIMIT && all_of_source(name.as_bytes())
}

/// Whether a host may have this name, and a domain in an MX table or a shaping file: 1 to 255 bytes of visible ASCII, none
/// of them `|`, `=`, `:`, `@`, `!` or `>`.
pub fn is_host_name(name: &str) -> bool
    ensures { result ≡ is_host_name name.now }
{
    !name.is_empty() && name.len() <= POLICY_NAME_LIMIT && all_of_host(name.as_bytes())
}

fn all_of_source(bytes: &[u8]) -> bool
    ensures { result ≡ list_all is_source_name_byte bytes.now }
{
    bytes.iter().all(|b| b' ' <= *b && *b != 127 && *b != b'>')
}

fn all_of_host(bytes: &[u8]) -> bool
    ensures { result ≡ list_all is_host_name_byte bytes.now }
{
    bytes.iter().all(|b| is_host_name_byte(*b))
}

fn is_host_name_byte(byte: u8) -> bool
    ensures { result ≡ is_host_name_byte byte }
{
    33 <= byte
        && byte <= 126
        && byte != b'|'
        && byte != b'='
        && byte != b':'
        && byte != b'@'
        && byte != b'!'
        && byte != b'>'
}
