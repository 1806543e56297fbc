// A line of input as a command, with the code text still a part of the line.
ghost use Rattle.std.specs.Prelude.{◌≡◌, ◌↔◌, Some, None};
ghost use Rattle.std.specs.Option.{option_map};
ghost use Rattle.commands.specs.Grammar.{Line, Says};
ghost use Rattle.commands.specs.Meaning.{meaning};
ghost use Rattle.commands.specs.Reading.{word_of, fields_of, line_of};

use crate::fields::{read_u32, read_u64, split_field, split_u32};
use crate::hex::is_hex;

// The bytes that a line may have, its line feed left out.
pub const MAX_LINE: usize = 8192;

// What a line asks for. Codes and hexadecimal text are parts of the line.
#[derive(Clone, Copy)]
pub enum Command<'a> {
    Add { list: u32, code: &'a [u8] },
    Remove { list: u32, code: &'a [u8] },
    Holds { list: u32, code: &'a [u8] },
    Under { list: u32, code: &'a [u8] },
    Count { list: u32 },
    Write { list: u32 },
    Pick { list: u32, k: u64 },
    Join { rule: u32, first: u32, second: u32 },
    Receive { hex: &'a [u8] },
}

// The word that a command begins with, by a name of its own: the grammar tells the forms of lines by it.
#[derive(Clone, Copy)]
enum Word {
    Add,
    Remove,
    Holds,
    Under,
    Count,
    Write,
    Pick,
    Join,
    Receive,
}

// The word that stands there.
fn read_word(word: &[u8]) -> Option<Word>
    ensures { result ≡ word_of word.now }
{
    match word {
        b"ADD" => Some(Word::Add),
        b"REMOVE" => Some(Word::Remove),
        b"HOLDS" => Some(Word::Holds),
        b"UNDER" => Some(Word::Under),
        b"COUNT" => Some(Word::Count),
        b"WRITE" => Some(Word::Write),
        b"PICK" => Some(Word::Pick),
        b"JOIN" => Some(Word::Join),
        b"RECEIVE" => Some(Word::Receive),
        _ => None,
    }
}

// The fields of a command, by its word.
fn read_fields<'a>(word: Word, text: &'a [u8]) -> Option<Command<'a>>
    ensures { option_map meaning result ≡ fields_of text.now word }
{
    match word {
        Word::Add => split_u32(text).map(|(list, code)| Command::Add { list, code }),
        Word::Remove => split_u32(text).map(|(list, code)| Command::Remove { list, code }),
        Word::Holds => split_u32(text).map(|(list, code)| Command::Holds { list, code }),
        Word::Under => split_u32(text).map(|(list, code)| Command::Under { list, code }),
        Word::Count => read_u32(text).map(|list| Command::Count { list }),
        Word::Write => read_u32(text).map(|list| Command::Write { list }),
        Word::Pick => {
            let (list, rest) = split_u32(text)?;
            let k = read_u64(rest)?;
            Some(Command::Pick { list, k })
        }
        Word::Join => {
            let (rule, rest) = split_u32(text)?;
            let (first, rest) = split_u32(rest)?;
            let second = read_u32(rest)?;
            Some(Command::Join {
                rule,
                first,
                second,
            })
        }
        Word::Receive if is_hex(text) => Some(Command::Receive { hex: text }),
        Word::Receive => None,
    }
}

// The command that a line writes, however long the line is.
fn read_line<'a>(line: &'a [u8]) -> Option<Command<'a>>
    ensures { option_map meaning result ≡ line_of line.now }
{
    let (word, rest) = split_field(line)?;
    read_fields(read_word(word)?, rest)
}

// The command that a line writes; none if the line is unreadable.
pub fn read_command<'a>(line: &'a [u8]) -> Option<Command<'a>>
    ensures answer { (l : Line) → (option_map meaning result ≡ Some l) ↔ Says line.now l }
    ensures refused { (option_map meaning result ≡ None) ↔ ((l : Line) → Says line.now l → ⊥) }
{
    if line.len() > MAX_LINE {
        return None;
    }
    read_line(line)
}
