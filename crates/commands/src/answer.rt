// The text of an answer: one line, its line feed included. An output that is too short is left as it was.
//
// It is no `Display`: a code's text may be any bytes, and the output is lent.
ghost use Rattle.commands.specs.Answers.{answer_text, ended, refused_text};
ghost use Rattle.commands.specs.Hexadecimals.{hexadecimal};
ghost use Rattle.texts.specs.Texts.{WrittenTo};

use crate::hex::encode_hex;
use itoa::Buffer;
use symbols::ShortOutput;

// What a line of input is answered. A code is its text; bytes are written in hexadecimal.
#[derive(Clone, Copy)]
pub enum Answer<'a> {
    Number(u64),
    Yes,
    No,
    Code(&'a [u8]),
    Bytes(&'a [u8]),
    // By its number, which the rules fix and the line prints.
    Refused(u8),
}

// Puts a text and a line feed at the start of `out`; so do the next two.
fn write_line(text: &[u8], out: &mut [u8]) -> Result<usize, ShortOutput>
    ensures { WrittenTo (ended text.now) out.old result out.new }
{
    let n = text.len();
    if out.len() <= n {
        return Err(ShortOutput);
    }
    out[0..n].copy_from_slice(text);
    out[n] = b'\n';
    Ok(n + 1)
}

fn write_refused(number: u8, out: &mut [u8]) -> Result<usize, ShortOutput>
    ensures { WrittenTo (ended (refused_text number)) out.old result out.new }
{
    let mut text = *b"REFUSED 255";
    let mut buffer = Buffer::new();
    let digits = buffer.format(number).as_bytes();
    let end = 8 + digits.len();
    text[8..end].copy_from_slice(digits);
    write_line(&text[..end], out)
}

fn write_bytes(bytes: &[u8], out: &mut [u8]) -> Result<usize, ShortOutput>
    ensures { WrittenTo (ended (hexadecimal bytes.now)) out.old result out.new }
{
    if out.is_empty() || (out.len() - 1) / 2 < bytes.len() {
        return Err(ShortOutput);
    }
    let n = encode_hex(bytes, out)?;
    out[n] = b'\n';
    Ok(n + 1)
}

// Puts the text of an answer at the start of `out`, and answers how long it is.
pub fn write_answer(answer: Answer, out: &mut [u8]) -> Result<usize, ShortOutput>
    ensures after { WrittenTo (answer_text answer.entry) out.old result out.new }
{
    match answer {
        Answer::Number(n) => write_line(Buffer::new().format(n).as_bytes(), out),
        Answer::Yes => write_line(b"YES", out),
        Answer::No => write_line(b"NO", out),
        Answer::Code(text) => write_line(text, out),
        Answer::Bytes(bytes) => write_bytes(bytes, out),
        Answer::Refused(number) => write_refused(number, out),
    }
}
