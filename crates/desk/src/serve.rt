// Serving a line: it is read as a command, the command is called on the store, and the result is written. Room for a code is
// lent, so what is answered with room for 65 symbols stands in each clause; with less room too a refusal says why.
ghost use Rattle.std.specs.Prelude.{◌≡◌, ◌≤◌, length, Result};
ghost use Rattle.commands.specs.Meaning.{meaning};
ghost use Rattle.store.specs.State.{seen};
ghost use Rattle.desk.specs.declared.reply.Reply.{Reply};
ghost use Rattle.desk.specs.declared.reply.LineFault.{LineFault};
ghost use Rattle.desk.specs.Replies.{picked, reply_text, Put, Reasoned};
ghost use Rattle.desk.specs.Desk.{Fitted, Calls, Serves};

use crate::reply::{LineFault, Reply, write_reply};
use commands::command::{Command, read_command};
use memory::recall::RecallTable;
use memory::shelf::Shelf;
use memory::work::Place;
use store::store::Store;
use symbols::ShortOutput;
use texts::{TextFault, TextSymbol};

// The code of a text, read to the start of `code` as far as there is room. With room for 65 a code that is too long still
// shows that it is.
fn read_text<'a, S: TextSymbol>(text: &[u8], code: &'a mut [S]) -> Result<&'a [S], TextFault>
    ensures { Fitted (S.TextSymbol.spells text.now) (length code.old) result }
{
    let n = S::read_code(text, code)?;
    Ok(&code[0..n.min(code.len())])
}

// Calls what a command names. A code is read first, and its text refused before the call is.
fn perform<S: TextSymbol, B: Shelf<S>, R: RecallTable>(
    store: &mut Store<S, B, R>,
    command: Command,
    code: &mut [S],
    work: &mut [Place],
) -> Result<Reply, LineFault>
    ensures answer { 65 ≤ length code.old → Calls S.Symbol.before S.TextSymbol.spells store.old.capacity (seen R.RecallTable.table store.old) work.old code.old (meaning command.entry) result (seen R.RecallTable.table store.new) code.new }
    ensures reasoned { Reasoned result }
    ensures size { store.new.capacity ≡ store.old.capacity }
{
    // By cases: a command is what a line says.
    match command {
        Command::Add { list, code: text } => {
            Ok(Reply::List(store.add(list, read_text(text, code)?, work)?))
        }
        Command::Remove { list, code: text } => {
            Ok(Reply::List(store.remove(list, read_text(text, code)?, work)?))
        }
        Command::Holds { list, code: text } => {
            Ok(Reply::Truth(store.holds(list, read_text(text, code)?)?))
        }
        Command::Under { list, code: text } => {
            Ok(Reply::List(store.under(list, read_text(text, code)?)?))
        }
        Command::Count { list } => Ok(Reply::Count(store.count(list, work)?)),
        Command::Pick { list, k } => Ok(Reply::Picked(store.pick(list, k, code, work)?)),
        Command::Join {
            rule,
            first,
            second,
        } => Ok(Reply::List(store.join(rule, first, second, work)?)),
        // Writing a list and receiving one are not served yet.
        Command::Write { .. } | Command::Receive { .. } => Err(LineFault::Unreadable),
    }
}

// What a line is answered.
fn reply_to<S: TextSymbol, B: Shelf<S>, R: RecallTable>(
    store: &mut Store<S, B, R>,
    line: &[u8],
    code: &mut [S],
    work: &mut [Place],
) -> Result<Reply, LineFault>
    ensures answer { 65 ≤ length code.old → Serves S.Symbol.before S.TextSymbol.spells store.old.capacity (seen R.RecallTable.table store.old) work.old code.old line.now result (seen R.RecallTable.table store.new) code.new }
    ensures reasoned { Reasoned result }
    ensures size { store.new.capacity ≡ store.old.capacity }
{
    let command = read_command(line).ok_or(LineFault::Unreadable)?;
    perform(store, command, code, work)
}

// Serves a line, and writes its answer line to the start of `out`; answers the length. `code` is room for a code, 65
// symbols or more; `text` is room for the text of one. Each is lent by itself, as the calls of the store take them.
pub fn serve<S: TextSymbol, B: Shelf<S>, R: RecallTable>(
    store: &mut Store<S, B, R>,
    line: &[u8],
    code: &mut [S],
    work: &mut [Place],
    text: &mut [u8],
    out: &mut [u8],
) -> Result<usize, ShortOutput>
    ensures answer { (reply : Result Reply LineFault) × Reasoned reply × Put (reply_text (S.TextSymbol.text (picked code.new reply)) reply) text.old out.old result out.new × (65 ≤ length code.old → Serves S.Symbol.before S.TextSymbol.spells store.old.capacity (seen R.RecallTable.table store.old) work.old code.old line.now reply (seen R.RecallTable.table store.new) code.new) }
    ensures size { store.new.capacity ≡ store.old.capacity }
{
    let reply = reply_to(store, line, code, work);
    write_reply(reply, code, text, out)
}
