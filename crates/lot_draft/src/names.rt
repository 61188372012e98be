// Names of items and resources.
ghost use Rattle.std.specs.Prelude.{◌≡◌};
ghost use Rattle.std.specs.List.{list_all};
ghost use Rattle.lot_sizing.specs.Problem.{is_name, is_name_byte};

use lot_sizing::limits::MAX_NAME;

// Whether a byte may stand in a name.
fn is_name_byte(byte: u8) -> bool
    ensures { result ≡ is_name_byte byte }
{
    matches!(byte, b'a'..=b'z')
        || matches!(byte, b'A'..=b'Z')
        || matches!(byte, b'0'..=b'9')
        || byte == b'_'
        || byte == b'-'
        || byte == b'.'
}

// Whether all bytes may stand in a name.
fn is_plain(bytes: &[u8]) -> bool
    ensures { result ≡ list_all is_name_byte bytes.now }
{
    bytes.iter().all(|byte| is_name_byte(*byte))
}

/// Whether a text is a name: 1 to `MAX_NAME` ASCII letters, digits, `_`, `-` or `.`.
pub fn is_name(text: &str) -> bool
    ensures { result ≡ is_name text.now }
{
    text.len() >= 1 && text.len() <= MAX_NAME && is_plain(text.as_bytes())
}
