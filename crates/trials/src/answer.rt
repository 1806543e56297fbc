// What a call answers, as text.
use std::alloc::AllocError;
use std::{fmt, io, str};
use store::fault::Fault;
use symbols::Refusal;
use texts::TextSymbol;

// No text of a code in these tables is longer.
const LONGEST_TEXT: usize = 64;

// Makes the calls of a table, one after another: a line for each says what is called, and what it answers.
pub fn run_table<C: Copy + fmt::Display, F: FnMut(C) -> Result<String, AllocError>>(
    rt: &HostRuntime,
    table: &[C],
    mut make: F,
) -> io::Result<()>
    requires { F.IsAlwaysCallable make }
{
    for call in table {
        let answer = make(*call)?;
        println!(rt; "{call}: {answer}")?;
    }
    Ok(())
}

// A code's text as a line shows it: a long one by its length.
#[derive(Clone, Copy)]
pub struct Code<'a>(pub &'a str);

impl<'a> fmt::Display for Code<'a> {
    fn fmt<W: fmt::Write>(&self, f: &mut fmt::Formatter<W>) -> fmt::Result {
        let text = self.0;
        match text.len() {
            0 => write!(f, "the empty code"),
            1..=8 => write!(f, "{text}"),
            length => write!(f, "a code of {length}"),
        }
    }
}

// A code by its text.
#[derive(Clone, Copy)]
pub struct Spelled<'a, S>(pub &'a [S]);

impl<'a, S: TextSymbol> fmt::Display for Spelled<'a, S> {
    fn fmt<W: fmt::Write>(&self, f: &mut fmt::Formatter<W>) -> fmt::Result {
        let mut bytes = [b' '; LONGEST_TEXT];
        let Ok(length) = S::write_code(self.0, &mut bytes) else {
            return write!(f, "a longer text");
        };
        match str::from_utf8(&bytes[0..length]) {
            Ok(text) => write!(f, "{}", Code(text)),
            Err(_) => write!(f, "no text"),
        }
    }
}

#[derive(Clone, Copy)]
pub struct YesOrNo(pub bool);

impl fmt::Display for YesOrNo {
    fn fmt<W: fmt::Write>(&self, f: &mut fmt::Formatter<W>) -> fmt::Result {
        f.write_str(if self.0 { "yes" } else { "no" })
    }
}

// What is found, or nothing.
#[derive(Clone, Copy)]
pub struct Found<T>(pub Option<T>);

impl<T: fmt::Display> fmt::Display for Found<T> {
    fn fmt<W: fmt::Write>(&self, f: &mut fmt::Formatter<W>) -> fmt::Result {
        match &self.0 {
            Some(found) => write!(f, "{found}"),
            None => write!(f, "nothing"),
        }
    }
}

// What a call of a store answers, or its refusal, with its place where it carries one.
#[derive(Clone, Copy)]
pub struct Told<T>(pub Result<T, Fault>);

impl<T: fmt::Display> fmt::Display for Told<T> {
    fn fmt<W: fmt::Write>(&self, f: &mut fmt::Formatter<W>) -> fmt::Result {
        match &self.0 {
            Ok(answer) => write!(f, "{answer}"),
            Err(fault) => {
                let number = Refusal::from(*fault).number;
                match *fault {
                    Fault::NoSuchList { place } => write!(f, "refused {number}, place {place}"),
                    _ => write!(f, "refused {number}"),
                }
            }
        }
    }
}
