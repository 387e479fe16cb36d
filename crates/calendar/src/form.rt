//! The ten bytes `YYYY-MM-DD` as digits and dashes.

ghost use Rattle.std.specs.Prelude.{◌≡◌, ◌<◌, ◌+◌, length, IsTrue};
ghost use Rattle.calendar.specs.Dates.{is_two_digits, two_digits, has_date_form, digit_byte};

fn are_two_digits(bytes: &[u8], i: usize) -> bool
    requires { i + 1 < length bytes.now }
    ensures { result ≡ is_two_digits bytes.now i }
{
    bytes[i].is_ascii_digit() && bytes[i + 1].is_ascii_digit()
}

/// Whether digits and dashes stand in the places of `YYYY-MM-DD`, and nothing after them.
pub fn is_date_form(bytes: &[u8]) -> bool
    ensures { result ≡ has_date_form bytes.now }
{
    bytes.len() == 10
        && are_two_digits(bytes, 0)
        && are_two_digits(bytes, 2)
        && bytes[4] == b'-'
        && are_two_digits(bytes, 5)
        && bytes[7] == b'-'
        && are_two_digits(bytes, 8)
}

/// The number that two digits write.
pub fn number_at(bytes: &[u8], i: usize) -> u8
    requires inside { i + 1 < length bytes.now }
    requires digits { IsTrue (is_two_digits bytes.now i) }
    ensures value { result ≡ two_digits bytes.now i }
    ensures below { result < 100 }
{
    (bytes[i] - b'0') * 10 + (bytes[i + 1] - b'0')
}

/// The byte of a digit.
pub fn byte_of_digit(n: u16) -> u8
    requires { n < 10 }
    ensures { result ≡ digit_byte n }
{
    b'0' + n as u8
}
