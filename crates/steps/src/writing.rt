// Writing a code of steps as its text.
//
// The length is found first, so that nothing is written where there is too little room.
ghost use Rattle.std.specs.Prelude.{◌≡◌, ◌+◌, ◌≤◌, ◌↔◌, ◌∷◌, length, Ok, decimal, IsSome, OnOk};
ghost use Rattle.texts.specs.Texts.{WrittenTo};
ghost use Rattle.steps.specs.Paths.{step_text, slashed, text_of, laid, Short};
ghost use Rattle.steps.specs.Stages.{spelled};

use crate::Step;
use itoa::{Buffer, write_digits};
use symbols::ShortOutput;

// How many digits a number has.
fn digits(n: u16) -> usize
    ensures value { result ≡ length (decimal n) }
    ensures few { result ≤ 5 }
{
    Buffer::new().format(n).len()
}

// Writes a step from `at` on, and answers where it ends.
fn write_step(step: Step, out: &mut [u8], at: usize) -> usize
    requires { at + length (step_text step) ≤ length out.old }
    ensures value { result ≡ at + length (step_text step) }
    ensures after { out.new ≡ laid at (step_text step) out.old }
    ensures short { Short step }
{
    out[at] = step.unit.to_letter();
    let end = at + 1 + digits(step.number);
    write_digits(u64::from(step.number), out, end);
    end
}

// Writes a slash and a step from `at` on, and answers where the step ends.
fn write_slashed(step: Step, out: &mut [u8], at: usize) -> usize
    requires { at + length (slashed step) ≤ length out.old }
    ensures value { result ≡ at + length (slashed step) }
    ensures after { out.new ≡ laid at (slashed step) out.old }
    ensures short { Short step }
{
    out[at] = b'/';
    write_step(step, out, at + 1)
}

// What is left of some room after the text of a code that begins with `first` and goes on with `rest`, if there is room for it.
fn room_after(first: Step, rest: &[Step], room: usize) -> Option<usize>
    ensures { IsSome result ↔ (length (text_of (first ∷ rest.now)) ≤ room) }
{
    let mut left = room.checked_sub(1 + digits(first.number))?;
    for step in rest {
        left = left.checked_sub(2 + digits(step.number))?;
    }
    Some(left)
}

// Writes the text of a code to the start of `out`, and answers its length.
pub fn write_steps(code: &[Step], out: &mut [u8]) -> Result<usize, ShortOutput>
    ensures answer { WrittenTo (text_of code.now) out.old result out.new }
    ensures back { OnOk result (spelled (text_of code.now) ≡ Ok code.now) }
{
    let Some((first, rest)) = code.split_first() else {
        return Ok(0);
    };
    room_after(*first, rest, out.len()).ok_or(ShortOutput)?;
    let mut at = write_step(*first, out, 0);
    for step in rest {
        at = write_slashed(*step, out, at);
    }
    Ok(at)
}
