// A number in a line: read from its field, and written in its digits.
#![tactic(auto)]

ghost use Rattle.std.specs.Prelude.{◌≡◌, [], ◌∷◌, ◌+◌, ◌*◌, ◌%◌, ◌<◌, ◌≤◌, SomeIff};
ghost use Rattle.text_buffers.specs.Buffers.{Wrote, Added};
ghost use Rattle.text_numbers.specs.Numbers.{largest, digit_of, digits_from, number_in, last_three, dec};

use text_fields::BadByte;

// The number with one more digit behind it, if the byte is a digit and that number is not too large.
#[tactic(auto, unfolding(crate::specs::Numbers::digit_of))]
fn with_digit(number: u16, byte: u8) -> Option<u16>
    ensures { SomeIff result ((digit_of byte < 10) × (number * 10 + digit_of byte ≤ largest))
        (number * 10 + digit_of byte) }
{
    match byte {
        b'0'..=b'9' => u16::try_from(u32::from(number) * 10 + u32::from(byte - b'0')).ok(),
        _ => None,
    }
}

// The number that the digits make.
fn digits(field: &[u8]) -> Result<u16, BadByte>
    ensures { result ≡ digits_from 0 0 field.now }
{
    let mut number = 0;
    for (place, byte) in field.iter().enumerate() {
        number = with_digit(number, *byte).ok_or(BadByte { place })?;
    }
    Ok(number)
}

// The number that a field holds; or the first byte with which it stops being the start of one.
pub fn number(field: &[u8]) -> Result<u16, BadByte>
    ensures { result ≡ number_in field.now }
{
    match field {
        [] => Err(BadByte { place: 0 }),
        b"0" => Ok(0),
        [b'0', ..] => Err(BadByte { place: 1 }),
        _ => digits(field),
    }
}

// Writes the last digit of n at the place `at`, and answers where the next byte goes.
fn add_digit(out: &mut [u8], at: usize, n: u32) -> usize
    ensures { Added ((48 + n % 10) ∷ []) out.old at out.new result }
{
    text_buffers::add_byte(out, at, b'0' + (n % 10) as u8)
}

// The same for its last three digits.
fn add_three(out: &mut [u8], at: usize, n: u32) -> usize
    ensures { Added (last_three n) out.old at out.new result }
{
    let j = add_digit(out, at, n / 100);
    let k = add_digit(out, j, n / 10);
    add_digit(out, k, n)
}

// Writes the digits of n, which is below a thousand, at the front of the buffer, and answers how many.
fn put_few(out: &mut [u8], n: u32) -> usize
    requires { n < 1000 }
    ensures { Wrote (dec n) out.old out.new result }
{
    if n < 10 {
        return add_digit(out, 0, n);
    }
    if n < 100 {
        let k = add_digit(out, 0, n / 10);
        return add_digit(out, k, n);
    }
    add_three(out, 0, n)
}

// The same for n below a million.
fn put_some(out: &mut [u8], n: u32) -> usize
    requires { n < 1000000 }
    ensures { Wrote (dec n) out.old out.new result }
{
    if n < 1000 {
        return put_few(out, n);
    }
    let k = put_few(out, n / 1000);
    add_three(out, k, n)
}

// The same for any n.
pub fn put_digits(out: &mut [u8], n: u32) -> usize
    ensures { Wrote (dec n) out.old out.new result }
{
    if n < 1000000 {
        return put_some(out, n);
    }
    let j = put_some(out, n / 1000000);
    let k = add_three(out, j, n / 1000);
    add_three(out, k, n)
}
