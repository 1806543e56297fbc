// Numbers read from decimal digits.
ghost use Rattle.std.specs.Prelude.{◌≡◌};
ghost use Rattle.texts.specs.Decimals.{digit_of, pushed};

// The digit that a byte is.
pub fn digit_of(b: u8) -> Option<u8>
    ensures { result ≡ digit_of b }
{
    match b {
        b'0'..=b'9' => Some(b - b'0'),
        _ => None,
    }
}

// One digit more of a number of 64 bits.
pub fn push_digit(n: u64, b: u8) -> Option<u64>
    ensures { result ≡ pushed n b }
{
    let digit = digit_of(b)?;
    n.checked_mul(10)?.checked_add(u64::from(digit))
}
