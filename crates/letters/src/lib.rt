// Letters: the bytes from 32 to 126, in order of value.
//
// A letter is one of 95 cases, so no value of the type is another byte. A code of letters has its bytes as its text: a space
// and a slash are letters like any other, and nothing is trimmed. Reading looks at each byte twice, writing at each letter once.
#![tactic(auto)]

ghost use Rattle.std.specs.Prelude.{◌≡◌, ◌*◌, ◌%◌, ◌^◌, ◌==◌, ◌↔◌, true, Ok, OnOk, nat_lt};
ghost use Rattle.std.specs.Ordering.{on};
ghost use Rattle.std.specs.Cmp.Rules.{comparing};
ghost use Rattle.std.specs.Cmp as Keys;
ghost use Rattle.std.proofs.Common.{rules};
ghost use Rattle.letters.specs.Letters.{byte_of, letter_of, letter_travel};
ghost use Rattle.letters.specs.Codes.{spelled, text_of};
ghost use Rattle.letters.specs.Bytes.{one_byte, letter_laws};
ghost use Rattle.letters.specs.Spelling.{own_text};
ghost use Rattle.symbols.proofs.Coded.{by_code};
ghost use Rattle.texts.specs.Texts.{Begun, WrittenTo};

use symbols::{ShortOutput, Symbol, SymbolFault, WireSymbol, same};
use texts::{TextFault, TextSymbol, put};

// The number of this kind.
const KIND: u8 = 1;

// The bytes that a letter takes.
const WIDTH: usize = 1;

#[derive(Clone, Copy, Debug)]
pub enum Letter {
    Space = b' ' as isize,
    Exclamation = b'!' as isize,
    Quote = b'"' as isize,
    Hash = b'#' as isize,
    Dollar = b'$' as isize,
    Percent = b'%' as isize,
    Ampersand = b'&' as isize,
    Apostrophe = b'\'' as isize,
    LeftParen = b'(' as isize,
    RightParen = b')' as isize,
    Asterisk = b'*' as isize,
    Plus = b'+' as isize,
    Comma = b',' as isize,
    Minus = b'-' as isize,
    Dot = b'.' as isize,
    Slash = b'/' as isize,
    Digit0 = b'0' as isize,
    Digit1 = b'1' as isize,
    Digit2 = b'2' as isize,
    Digit3 = b'3' as isize,
    Digit4 = b'4' as isize,
    Digit5 = b'5' as isize,
    Digit6 = b'6' as isize,
    Digit7 = b'7' as isize,
    Digit8 = b'8' as isize,
    Digit9 = b'9' as isize,
    Colon = b':' as isize,
    Semicolon = b';' as isize,
    Less = b'<' as isize,
    Equal = b'=' as isize,
    Greater = b'>' as isize,
    Question = b'?' as isize,
    At = b'@' as isize,
    CapitalA = b'A' as isize,
    CapitalB = b'B' as isize,
    CapitalC = b'C' as isize,
    CapitalD = b'D' as isize,
    CapitalE = b'E' as isize,
    CapitalF = b'F' as isize,
    CapitalG = b'G' as isize,
    CapitalH = b'H' as isize,
    CapitalI = b'I' as isize,
    CapitalJ = b'J' as isize,
    CapitalK = b'K' as isize,
    CapitalL = b'L' as isize,
    CapitalM = b'M' as isize,
    CapitalN = b'N' as isize,
    CapitalO = b'O' as isize,
    CapitalP = b'P' as isize,
    CapitalQ = b'Q' as isize,
    CapitalR = b'R' as isize,
    CapitalS = b'S' as isize,
    CapitalT = b'T' as isize,
    CapitalU = b'U' as isize,
    CapitalV = b'V' as isize,
    CapitalW = b'W' as isize,
    CapitalX = b'X' as isize,
    CapitalY = b'Y' as isize,
    CapitalZ = b'Z' as isize,
    LeftBracket = b'[' as isize,
    Backslash = b'\\' as isize,
    RightBracket = b']' as isize,
    Caret = b'^' as isize,
    Underscore = b'_' as isize,
    Backtick = b'`' as isize,
    SmallA = b'a' as isize,
    SmallB = b'b' as isize,
    SmallC = b'c' as isize,
    SmallD = b'd' as isize,
    SmallE = b'e' as isize,
    SmallF = b'f' as isize,
    SmallG = b'g' as isize,
    SmallH = b'h' as isize,
    SmallI = b'i' as isize,
    SmallJ = b'j' as isize,
    SmallK = b'k' as isize,
    SmallL = b'l' as isize,
    SmallM = b'm' as isize,
    SmallN = b'n' as isize,
    SmallO = b'o' as isize,
    SmallP = b'p' as isize,
    SmallQ = b'q' as isize,
    SmallR = b'r' as isize,
    SmallS = b's' as isize,
    SmallT = b't' as isize,
    SmallU = b'u' as isize,
    SmallV = b'v' as isize,
    SmallW = b'w' as isize,
    SmallX = b'x' as isize,
    SmallY = b'y' as isize,
    SmallZ = b'z' as isize,
    LeftBrace = b'{' as isize,
    Bar = b'|' as isize,
    RightBrace = b'}' as isize,
    Tilde = b'~' as isize,
}

// The letter of a byte.
impl TryFrom<u8> for Letter {
    type Error = SymbolFault;

    ghost try_from_gives = { λ b r. r ≡ letter_of b };

    fn try_from(b: u8) -> Result<Letter, SymbolFault> {
        let letter = match b {
            b' ' => Letter::Space,
            b'!' => Letter::Exclamation,
            b'"' => Letter::Quote,
            b'#' => Letter::Hash,
            b'$' => Letter::Dollar,
            b'%' => Letter::Percent,
            b'&' => Letter::Ampersand,
            b'\'' => Letter::Apostrophe,
            b'(' => Letter::LeftParen,
            b')' => Letter::RightParen,
            b'*' => Letter::Asterisk,
            b'+' => Letter::Plus,
            b',' => Letter::Comma,
            b'-' => Letter::Minus,
            b'.' => Letter::Dot,
            b'/' => Letter::Slash,
            b'0' => Letter::Digit0,
            b'1' => Letter::Digit1,
            b'2' => Letter::Digit2,
            b'3' => Letter::Digit3,
            b'4' => Letter::Digit4,
            b'5' => Letter::Digit5,
            b'6' => Letter::Digit6,
            b'7' => Letter::Digit7,
            b'8' => Letter::Digit8,
            b'9' => Letter::Digit9,
            b':' => Letter::Colon,
            b';' => Letter::Semicolon,
            b'<' => Letter::Less,
            b'=' => Letter::Equal,
            b'>' => Letter::Greater,
            b'?' => Letter::Question,
            b'@' => Letter::At,
            b'A' => Letter::CapitalA,
            b'B' => Letter::CapitalB,
            b'C' => Letter::CapitalC,
            b'D' => Letter::CapitalD,
            b'E' => Letter::CapitalE,
            b'F' => Letter::CapitalF,
            b'G' => Letter::CapitalG,
            b'H' => Letter::CapitalH,
            b'I' => Letter::CapitalI,
            b'J' => Letter::CapitalJ,
            b'K' => Letter::CapitalK,
            b'L' => Letter::CapitalL,
            b'M' => Letter::CapitalM,
            b'N' => Letter::CapitalN,
            b'O' => Letter::CapitalO,
            b'P' => Letter::CapitalP,
            b'Q' => Letter::CapitalQ,
            b'R' => Letter::CapitalR,
            b'S' => Letter::CapitalS,
            b'T' => Letter::CapitalT,
            b'U' => Letter::CapitalU,
            b'V' => Letter::CapitalV,
            b'W' => Letter::CapitalW,
            b'X' => Letter::CapitalX,
            b'Y' => Letter::CapitalY,
            b'Z' => Letter::CapitalZ,
            b'[' => Letter::LeftBracket,
            b'\\' => Letter::Backslash,
            b']' => Letter::RightBracket,
            b'^' => Letter::Caret,
            b'_' => Letter::Underscore,
            b'`' => Letter::Backtick,
            b'a' => Letter::SmallA,
            b'b' => Letter::SmallB,
            b'c' => Letter::SmallC,
            b'd' => Letter::SmallD,
            b'e' => Letter::SmallE,
            b'f' => Letter::SmallF,
            b'g' => Letter::SmallG,
            b'h' => Letter::SmallH,
            b'i' => Letter::SmallI,
            b'j' => Letter::SmallJ,
            b'k' => Letter::SmallK,
            b'l' => Letter::SmallL,
            b'm' => Letter::SmallM,
            b'n' => Letter::SmallN,
            b'o' => Letter::SmallO,
            b'p' => Letter::SmallP,
            b'q' => Letter::SmallQ,
            b'r' => Letter::SmallR,
            b's' => Letter::SmallS,
            b't' => Letter::SmallT,
            b'u' => Letter::SmallU,
            b'v' => Letter::SmallV,
            b'w' => Letter::SmallW,
            b'x' => Letter::SmallX,
            b'y' => Letter::SmallY,
            b'z' => Letter::SmallZ,
            b'{' => Letter::LeftBrace,
            b'|' => Letter::Bar,
            b'}' => Letter::RightBrace,
            b'~' => Letter::Tilde,
            _ => return Err(SymbolFault { byte: b }),
        };
        Ok(letter)
    }
}

// The byte of a letter.
impl From<Letter> for u8 {
    ghost from_gives = { λ letter r. r ≡ byte_of letter };

    fn from(letter: Letter) -> u8 {
        letter as u8
    }
}

// Written out: a derived `==` would tell its caller neither that the bytes are equal nor that the letters are.
impl PartialEq for Letter {
    ghost eq = { on byte_of ◌==◌ };

    ghost laws = { Keys.partial_equiv_from_equiv (Prim.search (comparing, rules)) };

    fn eq(&self, other: &Letter) -> bool
        ensures value { result ≡ on byte_of ◌==◌ self.now other.now }
        ensures same { (result ≡ true) ↔ (self.now ≡ other.now) }
    {
        same(*self, *other)
    }
}

impl Eq for Letter {
    ghost laws = { Prim.search (comparing, rules) };
}

// Whether two letters are one and the same.
pub fn same_letter(a: Letter, b: Letter) -> bool
    ensures { (result ≡ true) ↔ (a ≡ b) }
{
    a == b
}

impl Symbol for Letter {
    ghost before = { λ a b. nat_lt (byte_of a) (byte_of b) };

    ghost scatter = { λ a. byte_of a * 2654435761 % 2 ^ 32 };

    ghost ordered = { by_code byte_of one_byte };

    // By bytes, which the law of the order goes by.
    fn before(self, other: Letter) -> bool {
        u8::from(self) < u8::from(other)
    }

    fn scatter(self) -> u32 {
        u32::from(u8::from(self)).wrapping_mul(2654435761)
    }
}

impl WireSymbol for Letter {
    ghost travel = { letter_travel };

    ghost wired = { letter_laws };

    fn kind() -> u8 {
        KIND
    }

    fn width() -> usize {
        WIDTH
    }

    fn write(self, out: &mut [u8]) {
        out[0] = u8::from(self);
    }

    fn read(from: &[u8]) -> Result<Letter, SymbolFault> {
        Letter::try_from(from[0])
    }
}

impl TextSymbol for Letter {
    ghost spells = { spelled };

    ghost text = { text_of };

    ghost own = { own_text };

    // Reads twice: first with no room at all, to see that every byte is a letter.
    fn read_code(from: &[u8], out: &mut [Letter]) -> Result<usize, TextFault> {
        read_letters(from, &mut [])?;
        read_letters(from, out)
    }

    fn write_code(code: &[Letter], out: &mut [u8]) -> Result<usize, ShortOutput> {
        write_letters(code, out)
    }
}

// Reads the letters of a text to the start of `out`, as far as there is room, up to the first byte that is none.
fn read_letters(from: &[u8], out: &mut [Letter]) -> Result<usize, TextFault>
    ensures { Begun (spelled from.now) out.old result out.new }
{
    // By index: the output may have room for fewer.
    for (i, b) in from.iter().enumerate() {
        let letter = Letter::try_from(*b)?;
        put(out, i, letter);
    }
    Ok(from.len())
}

// Writes the bytes of the letters of a code to the start of `out`, if there is room for all.
fn write_letters(code: &[Letter], out: &mut [u8]) -> Result<usize, ShortOutput>
    ensures answer { WrittenTo (text_of code.now) out.old result out.new }
    ensures back { OnOk result (spelled (text_of code.now) ≡ Ok code.now) }
{
    if code.len() > out.len() {
        return Err(ShortOutput);
    }
    // By index: of an output that `iter_mut` lends beside another slice nothing is told after.
    for (i, letter) in code.iter().enumerate() {
        out[i] = u8::from(*letter);
    }
    Ok(code.len())
}
