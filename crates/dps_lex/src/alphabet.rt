//! The classes of bytes.

ghost use Rattle.std.specs.Prelude.{◌≡◌};
ghost use Rattle.dps_lex.specs.Alphabet.{is_blank, is_letter, is_digit, is_name_byte};
ghost use Rattle.dps_lex.specs.Scanning.{is_plain};

pub(crate) fn blank(byte: u8) -> bool
    ensures { result ≡ is_blank byte }
{
    byte == b' ' || byte == b'\t' || byte == b'\n' || byte == b'\r'
}

pub(crate) fn letter(byte: u8) -> bool
    ensures { result ≡ is_letter byte }
{
    (b'A' <= byte && byte <= b'Z') || (b'a' <= byte && byte <= b'z')
}

pub(crate) fn digit(byte: u8) -> bool
    ensures { result ≡ is_digit byte }
{
    b'0' <= byte && byte <= b'9'
}

/// Whether the byte may follow the first letter of a name.
pub(crate) fn name_byte(byte: u8) -> bool
    ensures { result ≡ is_name_byte byte }
{
    letter(byte) || digit(byte) || byte == b'_' || byte == b'\''
}

/// Whether the byte ends no line, and opens and closes no comment with what follows.
pub(crate) fn plain(byte: u8) -> bool
    ensures { result ≡ is_plain byte }
{
    byte != b'\n' && byte != b'(' && byte != b'*'
}
