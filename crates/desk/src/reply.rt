// What a line is answered, before it is written, and its text.
ghost use Rattle.desk.specs.Replies.{line_refusal, picked, reply_or_refusal_text, reply_text, Put};
ghost use Rattle.desk.specs.declared.reply.LineFault.TheVariants.{Text as text_fault, Store as store_fault};
ghost use Rattle.std.specs.Prelude.{◌≡◌, take, Ok};
ghost use Rattle.commands.specs.Answers.{ended};
ghost use Rattle.symbols.specs.Refusals.{plain};

use commands::answer::{Answer, write_answer};
use store::fault::Fault;
use symbols::{Refusal, ShortOutput};
use texts::{TextFault, TextSymbol};

#[derive(Clone, Copy, Debug, PartialEq, Eq)]
pub enum Reply {
    // A list, by its number.
    List(u32),
    // How many codes there are.
    Count(u64),
    Truth(bool),
    // A code, by its length: its symbols stand at the start of the symbol output.
    Picked(usize),
}

// Why a line has no reply: it says nothing that is served, its text spells no code, or the store refuses the call. A refusal of
// which only the number is known is written like these, but no line is answered by it.
#[derive(Clone, Copy, Debug, PartialEq, Eq)]
pub enum LineFault {
    Unreadable,
    Text(TextFault),
    Store(Fault),
    // A refusal, by its number.
    Refused(u8),
}

impl From<TextFault> for LineFault {
    ghost from_gives = { λ fault r. r ≡ text_fault fault };

    fn from(fault: TextFault) -> Self {
        Self::Text(fault)
    }
}

impl From<Fault> for LineFault {
    ghost from_gives = { λ fault r. r ≡ store_fault fault };

    fn from(fault: Fault) -> Self {
        Self::Store(fault)
    }
}

// A refusal that carries nothing but its number.
fn refused(number: u8) -> Refusal
    ensures { result ≡ plain number }
{
    Refusal {
        number,
        detail: 0,
        symbol: None,
    }
}

impl From<LineFault> for Refusal {
    ghost from_gives = { λ fault r. r ≡ line_refusal fault };

    fn from(fault: LineFault) -> Refusal {
        match fault {
            LineFault::Unreadable => refused(18),
            LineFault::Text(fault) => Refusal::from(fault),
            LineFault::Store(fault) => Refusal::from(fault),
            LineFault::Refused(number) => refused(number),
        }
    }
}

// Writes the text of the code of this length at the start of `code`, as a line, to the start of `out`; its text is made in
// `text` first.
fn write_picked<S: TextSymbol>(
    length: usize,
    code: &[S],
    text: &mut [u8],
    out: &mut [u8],
) -> Result<usize, ShortOutput>
    ensures { Put (ended (S.TextSymbol.text (take length code.now))) text.old out.old result out.new }
{
    let length = length.min(code.len());
    let n = S::write_code(&code[0..length], text)?;
    write_answer(Answer::Code(&text[0..n]), out)
}

// Writes the answer line of a reply, or of a refusal of any number, to the start of `out`, and answers its length. Where the
// reply is a code, it stands in `code`, and its text is made in `text`.
pub fn write_reply_or_refusal<S: TextSymbol>(
    reply: Result<Reply, Refusal>,
    code: &[S],
    text: &mut [u8],
    out: &mut [u8],
) -> Result<usize, ShortOutput>
    ensures { Put (reply_or_refusal_text (S.TextSymbol.text (picked code.now reply)) reply) text.old out.old result out.new }
{
    match reply {
        Ok(Reply::List(n)) => write_answer(Answer::Number(u64::from(n)), out),
        Ok(Reply::Count(n)) => write_answer(Answer::Number(n), out),
        Ok(Reply::Truth(true)) => write_answer(Answer::Yes, out),
        Ok(Reply::Truth(false)) => write_answer(Answer::No, out),
        Ok(Reply::Picked(length)) => write_picked(length, code, text, out),
        Err(refusal) => write_answer(Answer::Refused(refusal.number), out),
    }
}

// The same of what a line is answered, or of a refusal by its number alone.
pub fn write_reply<S: TextSymbol>(
    reply: Result<Reply, LineFault>,
    code: &[S],
    text: &mut [u8],
    out: &mut [u8],
) -> Result<usize, ShortOutput>
    ensures { Put (reply_text (S.TextSymbol.text (picked code.now reply)) reply) text.old out.old result out.new }
{
    write_reply_or_refusal(reply.map_err(Refusal::from), code, text, out)
}
