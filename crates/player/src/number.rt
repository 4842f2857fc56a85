// A field: a number of 32 bits in plain decimal.
ghost use Rattle.std.specs.Prelude.{◌≡◌, true};
ghost use Rattle.std.specs.Str.Parse.{digits_value};
ghost use Rattle.std.specs.Str.{all_ascii_digits};
ghost use Rattle.player.specs.Fields.{plain_decimal, small, field_of};

use crate::fault::TextWhy;

// Above every number of 32 bits.
const ABOVE: u64 = 4294967296;

// The number that a part of a line writes.
pub fn number(part: &[u8]) -> Result<u32, TextWhy>
    ensures { result ≡ field_of part.now }
{
    if !is_plain(part) {
        return Err(TextWhy::Field);
    }
    plain_value(part)
}

// The value of plain decimal. Each further digit only makes it larger, so it is known to be too large at once. (The library's `parse` asks for
// text, and of each byte again whether it is a digit: a text of turns took half as long again to read. A `fold` goes to the end.)
fn plain_value(part: &[u8]) -> Result<u32, TextWhy>
    requires { all_ascii_digits part.now ≡ true }
    ensures { result ≡ small (digits_value 10 part.now) }
{
    let mut n: u64 = 0;
    for b in part {
        n = n * 10 + (*b - b'0') as u64;
        if n >= ABOVE {
            return Err(TextWhy::TooLarge);
        }
    }
    Ok(n as u32)
}

// Whether the part is plain decimal: digits only, at least one, and not beginning with 0 unless it is 0 alone.
fn is_plain(part: &[u8]) -> bool
    ensures { result ≡ plain_decimal part.now }
{
    match part {
        [] => false,
        [b'0', _, ..] => false,
        _ => all_digits(part),
    }
}

fn all_digits(part: &[u8]) -> bool
    ensures { result ≡ all_ascii_digits part.now }
{
    part.iter().all(|b| b.is_ascii_digit())
}
