//! The classes of bytes, and what a text begins with.

ghost use Rattle.std.specs.Prelude.{◌≡◌, ◌==◌};
ghost use Rattle.rtlil_lex.specs.Bytes.{is_letter, is_digit, is_octal, is_blank, is_sigil, is_name_byte, is_bit, is_mark, begins, is_line_end};

/// White space.
pub fn is_blank(b: u8) -> bool
    ensures { result ≡ is_blank b }
{
    b == b' ' || b == b'\t' || b == b'\r'
}

/// What an identifier is made of.
pub fn is_name_byte(b: u8) -> bool
    ensures { result ≡ is_name_byte b }
{
    !(is_blank(b) || b == b'\n')
}

pub fn is_letter(b: u8) -> bool
    ensures { result ≡ is_letter b }
{
    b'a' <= b && b <= b'z'
}

pub fn is_digit(b: u8) -> bool
    ensures { result ≡ is_digit b }
{
    b'0' <= b && b <= b'9'
}

pub fn is_octal(b: u8) -> bool
    ensures { result ≡ is_octal b }
{
    b'0' <= b && b <= b'7'
}

/// What an identifier begins with.
pub fn is_sigil(b: u8) -> bool
    ensures { result ≡ is_sigil b }
{
    b == b'\\' || b == b'$'
}

/// A written bit.
pub fn is_bit(b: u8) -> bool
    ensures { result ≡ is_bit b }
{
    b == b'0' || b == b'1' || b == b'x' || b == b'z' || b == b'm' || b == b'-'
}

pub fn is_mark(b: u8) -> bool
    ensures { result ≡ is_mark b }
{
    b == b'[' || b == b']' || b == b'{' || b == b'}' || b == b':' || b == b','
}

/// Whether there is a first byte, and it is an octal digit.
pub fn begins_octal(bytes: &[u8]) -> bool
    ensures { result ≡ begins is_octal bytes.now }
{
    !bytes.is_empty() && is_octal(bytes[0])
}

/// Whether there is a first byte, and it is this one.
pub fn begins_with(bytes: &[u8], b: u8) -> bool
    ensures { result ≡ begins (λ x. x == b) bytes.now }
{
    !bytes.is_empty() && bytes[0] == b
}

/// Whether nothing follows on the line.
pub fn is_line_end(bytes: &[u8]) -> bool
    ensures { result ≡ is_line_end bytes.now }
{
    bytes.is_empty() || bytes[0] == b'\n'
}
