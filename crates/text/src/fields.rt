//! A field of a line: its bytes without the spaces around it, and the number that it writes.
ghost use Rattle.std.specs.Prelude.{◌≡◌, ◌≤◌, length};
ghost use Rattle.std.specs.List.{prefix_len, suffix_len};
ghost use Rattle.text.specs.Fields.{space, trimmed, digits as digits_of, number as number_of};

// How many spaces stand at the front.
fn spaces_before(bytes: &[u8]) -> usize
    ensures count { result ≡ prefix_len space bytes.now }
    ensures within { result ≤ length bytes.now }
{
    bytes.iter().take_while(|c| **c == b' ').count()
}

// How many spaces stand at the end.
fn spaces_after(bytes: &[u8]) -> usize
    ensures count { result ≡ suffix_len space bytes.now }
    ensures within { result ≤ length bytes.now }
{
    bytes.iter().rev().take_while(|c| **c == b' ').count()
}

// The bytes without the spaces around them.
pub fn trim(bytes: &[u8]) -> &[u8]
    ensures { result.now ≡ trimmed bytes.now }
{
    let rest = &bytes[spaces_before(bytes)..];
    &rest[..rest.len() - spaces_after(rest)]
}

// The number that a few digits write, or None where a byte is no digit.
fn digits(field: &[u8]) -> Option<u32>
    requires { length field.now ≤ 5 }
    ensures { result ≡ digits_of 0 field.now }
{
    // No `try_fold`: that the number so far fits needs an invariant, which a closure cannot have.
    let mut n = 0u32;
    for c in field {
        if !c.is_ascii_digit() {
            return None;
        }
        n = n * 10 + u32::from(*c - b'0');
    }
    Some(n)
}

// The number that one to five digits write.
pub fn number(field: &[u8]) -> Option<u32>
    ensures { result ≡ number_of field.now }
{
    if field.is_empty() || field.len() > 5 {
        return None;
    }
    digits(field)
}
