// Bytes as lower-case hexadecimal text, two digits a byte, and back. Each call goes over its text at most twice: a text
// is tested whole before anything is written.
ghost use Rattle.std.specs.Prelude.{◌≡◌, ℕ, ◌/◌, ◌%◌, ◌<◌, true, List};
ghost use Rattle.commands.specs.Hexadecimals.{digit, hexadecimal, Writes};
ghost use Rattle.texts.specs.Texts.{WrittenTo};
ghost use Rattle.commands.specs.Outputs.{Decodes};
ghost use Rattle.commands.specs.Reading.{is_digit, all_digits, is_text};

use symbols::ShortOutput;

// Why hexadecimal text is refused.
#[derive(Clone, Copy, Debug, PartialEq, Eq)]
pub enum HexFault {
    NotHexadecimal,
    OutputTooShort,
}

// Whether a byte is a lower-case hexadecimal digit.
fn is_digit(b: u8) -> bool
    ensures { result ≡ is_digit b }
{
    matches!(b, b'0'..=b'9' | b'a'..=b'f')
}

// Whether a text is digits alone.
fn has_only_digits(text: &[u8]) -> bool
    ensures { result ≡ all_digits text.now }
{
    // By hand: `all` of the text's bytes takes nearly twice the time.
    for b in text {
        if !is_digit(*b) {
            return false;
        }
    }
    true
}

// Whether a text writes bytes: an even number of digits.
pub(crate) fn is_hex(text: &[u8]) -> bool
    ensures { result ≡ is_text text.now }
{
    has_only_digits(text) && text.len() % 2 == 0
}

// The number that a digit stands for.
// By hand, as the next three: the kit's `hex` reads capitals too.
fn digit_value(b: u8) -> u8
    requires { is_digit b ≡ true }
    ensures { (result < 16) × (digit result ≡ b) }
{
    if b <= b'9' { b - b'0' } else { b - b'a' + 10 }
}

// The byte that two digits write.
fn read_pair(high: u8, low: u8) -> u8
    requires { (is_digit high ≡ true) × (is_digit low ≡ true) }
    ensures { (result < 256) × (digit (result / 16) ≡ high) × (digit (result % 16) ≡ low) }
{
    digit_value(high) * 16 + digit_value(low)
}

// The digit of a number below 16.
fn write_digit(n: u8) -> u8
    requires { n < 16 }
    ensures { result ≡ digit n }
{
    if n < 10 { b'0' + n } else { b'a' - 10 + n }
}

// Puts the bytes that a hexadecimal text writes at the start of `out`, and answers how many they are.
pub fn decode_hex(hex: &[u8], out: &mut [u8]) -> Result<usize, HexFault>
    ensures answer { Decodes hex.now out.old out.new result }
    ensures once { (these those : List ℕ) → Writes hex.now these → Writes hex.now those → these ≡ those }
{
    if !is_hex(hex) {
        return Err(HexFault::NotHexadecimal);
    }
    let count = hex.len() / 2;
    if out.len() < count {
        return Err(HexFault::OutputTooShort);
    }
    // By index: of an output that `iter_mut` lends beside `chunks_exact` nothing is told after.
    for i in 0..count {
        out[i] = read_pair(hex[2 * i], hex[2 * i + 1]);
    }
    Ok(count)
}

// Puts the hexadecimal text of bytes at the start of `out`, and answers how long it is.
pub fn encode_hex(bytes: &[u8], out: &mut [u8]) -> Result<usize, ShortOutput>
    ensures answer { WrittenTo (hexadecimal bytes.now) out.old result out.new }
{
    if out.len() / 2 < bytes.len() {
        return Err(ShortOutput);
    }
    // By index: of an output that `chunks_mut` lends nothing is told after.
    for (i, b) in bytes.iter().enumerate() {
        out[2 * i] = write_digit(*b / 16);
        out[2 * i + 1] = write_digit(*b % 16);
    }
    Ok(2 * bytes.len())
}
