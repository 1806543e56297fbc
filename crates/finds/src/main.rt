// The program: each line of standard input is answered by one line on standard output.
//
// The first line names the kind of symbol. All memory is taken at the start; a line costs what its call costs, and besides
// only time in its own length. Answers are written out before a read that may have to wait.
#![tactic(auto)]

mod input;
mod session;

use commands::command::MAX_LINE;
use commands::kinds::{Kind, read_kind};
use input::Conversation;
use letters::Letter;
use session::converse;
use std::io;
use steps::{Step, Unit};

// A line is held with room for one byte more than it may have: so a longer one shows.
const LINE_ROOM: usize = MAX_LINE + 1;

// The symbols that memory for symbols holds before it is used.
const LETTER: Letter = Letter::Space;

const STEP: Step = Step {
    unit: Unit::Site,
    number: 0,
};

fn main(rt: HostRuntime) -> io::Result<()> {
    let heap = rt.alloc();
    let mut room = vec![in heap; 0u8; LINE_ROOM]?;
    let mut lines = Conversation::new(heap, rt.stdin(), rt.stdout(), &mut room)?;
    let Some(line) = lines.next_line()? else {
        return Ok(());
    };
    match read_kind(line) {
        Some(Kind::Letters) => {
            lines.answer(b"LETTERS\n")?;
            converse(heap, LETTER, &mut lines)
        }
        Some(Kind::Steps) => {
            lines.answer(b"STEPS\n")?;
            converse(heap, STEP, &mut lines)
        }
        None => {
            lines.answer(b"REFUSED 18\n")?;
            lines.end()
        }
    }
}
