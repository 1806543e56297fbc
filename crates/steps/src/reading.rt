// Reading a code of steps from its text, one byte after another.
//
// A byte takes the reading from one stage to the next, or makes the text unreadable.
ghost use Rattle.std.specs.Prelude.{◌≡◌, ◌+◌, ◌^◌, ◌<◌};
ghost use Rattle.texts.specs.Texts.{Begun};
ghost use Rattle.steps.specs.Paths.{Exact};
ghost use Rattle.steps.specs.Stages.{grown, turned, Kept, spelled};

use crate::{Step, Unit};
use texts::decimals::{digit_of, push_digit};
use texts::{TextFault, put};

// What is read of a step: nothing, its letter, or its letter and a digit or more.
#[derive(Clone, Copy)]
pub enum Stage {
    Start,
    Lettered(Unit),
    Numbered(Step),
}

// What a byte does: it may end a step, and the reading goes on from a stage.
#[derive(Clone, Copy)]
pub struct Turn {
    pub done: Option<Step>,
    pub next: Stage,
}

// One digit more of a step's number: none after a leading zero, and none past 16 bits.
fn lengthen(number: u16, b: u8) -> Option<u16>
    ensures { result ≡ grown number b }
{
    if number == 0 {
        return None;
    }
    let longer = push_digit(u64::from(number), b)?;
    u16::try_from(longer).ok()
}

// What a byte does at a stage.
fn read_byte(stage: Stage, b: u8) -> Option<Turn>
    ensures { result ≡ turned stage b }
{
    // A stage is a value: each byte finds the reading where the last one left it.
    match stage {
        Stage::Start => {
            let unit = Unit::from_letter(char::from(b))?;
            Some(Turn {
                done: None,
                next: Stage::Lettered(unit),
            })
        }
        Stage::Lettered(unit) => {
            let number = u16::from(digit_of(b)?);
            Some(Turn {
                done: None,
                next: Stage::Numbered(Step { unit, number }),
            })
        }
        Stage::Numbered(step) => read_in_number(step, b),
    }
}

// What a byte does after a digit: it is another, or the slash that ends the step.
fn read_in_number(step: Step, b: u8) -> Option<Turn>
    ensures { result ≡ turned (Stage.Numbered step) b }
{
    if b == b'/' {
        return Some(Turn {
            done: Some(step),
            next: Stage::Start,
        });
    }
    let number = lengthen(step.number, b)?;
    Some(Turn {
        done: None,
        next: Stage::Numbered(Step {
            unit: step.unit,
            number,
        }),
    })
}

// Keeps a step that has ended, if one has, and answers how many have. By cases: an `if let` says the count twice as well.
fn keep(done: Option<Step>, count: usize, out: &mut [Step]) -> usize
    requires { count + 1 < 2 ^ 64 }
    ensures { Kept done count out.old result out.new }
{
    match done {
        None => count,
        Some(step) => {
            put(out, count, step);
            count + 1
        }
    }
}

// Reads the steps of a text to the start of `out`, as far as there is room, up to the first byte that is out of place.
#[tactic(auto, using(crate::specs::Spelling::exact))]
pub fn read_steps(from: &[u8], out: &mut [Step]) -> Result<usize, TextFault>
    ensures answer { Begun (spelled from.now) out.old result out.new }
    ensures exact { Exact from.now (spelled from.now) }
{
    if from.is_empty() {
        return Ok(0);
    }
    let mut stage = Stage::Start;
    // A count beside the output, which is lent by the call.
    let mut count: usize = 0;
    for b in from {
        let turn = read_byte(stage, *b).ok_or(TextFault::Unreadable)?;
        count = keep(turn.done, count, out);
        stage = turn.next;
    }
    let Stage::Numbered(last) = stage else {
        return Err(TextFault::Unreadable);
    };
    put(out, count, last);
    Ok(count + 1)
}
