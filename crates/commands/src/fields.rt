// The fields of a line: words, and numbers in decimal. Each function goes over its bytes once.
ghost use Rattle.std.specs.Prelude.{◌≡◌, ◌==◌, position};
ghost use Rattle.std.specs.Option.{option_map};
ghost use Rattle.commands.specs.Reading.{field_of, texts, plain, number_of, narrow_of, listed, listed_text};

use texts::decimals::push_digit;

// The place of the first space.
fn find_space(text: &[u8]) -> Option<usize>
    ensures { result ≡ position (λ b. b == 32) text.now }
{
    text.iter().position(|b| *b == b' ')
}

// What stands before the first space, and what stands after it.
pub fn split_field<'a>(text: &'a [u8]) -> Option<(&'a [u8], &'a [u8])>
    ensures { option_map texts result ≡ field_of text.now }
{
    let end = find_space(text)?;
    Some((&text[..end], &text[end + 1..]))
}

// Whether there is a first digit, and no zero that leads others.
fn is_plain(digits: &[u8]) -> bool
    ensures { result ≡ plain digits.now }
{
    match digits {
        [] => false,
        [_] => true,
        [first, ..] => *first != b'0',
    }
}

// A number of 64 bits in decimal, without leading zeros.
pub fn read_u64(digits: &[u8]) -> Option<u64>
    ensures { result ≡ number_of digits.now }
{
    if !is_plain(digits) {
        return None;
    }
    let mut n: u64 = 0;
    for b in digits {
        n = push_digit(n, *b)?;
    }
    Some(n)
}

// A number of 32 bits in decimal, without leading zeros.
pub fn read_u32(digits: &[u8]) -> Option<u32>
    ensures { result ≡ narrow_of digits.now }
{
    let n = read_u64(digits)?;
    u32::try_from(n).ok()
}

// A number of 32 bits, and what stands after its space.
pub fn split_u32<'a>(text: &'a [u8]) -> Option<(u32, &'a [u8])>
    ensures { option_map listed_text result ≡ listed text.now }
{
    let (digits, rest) = split_field(text)?;
    let n = read_u32(digits)?;
    Some((n, rest))
}
