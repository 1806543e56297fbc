// Lines cut out of chunks of input.
ghost use Rattle.std.specs.Prelude.{◌≡◌, ◌≤◌, min, take, length};
ghost use Rattle.desk.specs.Lines.{Ends, Held};

// Where the first line feed stands; none, if there is none.
pub fn find_line_feed(bytes: &[u8]) -> Option<usize>
    ensures { Ends bytes.now result }
{
    bytes.iter().position(|b| *b == b'\n')
}

// How many bytes of so many fit.
fn count_fitting(room: usize, bytes: usize) -> usize
    ensures { result ≡ min bytes room }
{
    bytes.min(room)
}

// Puts more bytes after the first `held` of a line, as far as there is room, and answers how many are held then.
pub fn hold(line: &mut [u8], held: usize, more: &[u8]) -> usize
    requires { held ≤ length line.old }
    ensures within { result ≤ length line.new }
    ensures answer { Held line.old held more.now result line.new }
{
    let n = count_fitting(line.len() - held, more.len());
    line[held..held + n].copy_from_slice(&more[0..n]);
    held + n
}

// A line as far as it has come. It may begin in one chunk and end in another, so its bytes are held in a buffer of their
// own, which is lent. What has no room there is dropped: with room for one byte more than a line may have, a longer line
// still shows that it is, however long it is. Each byte is looked at once and copied once.
// A buffer with a length, and no `Vec`: the desk takes no memory.
// It holds the same reference from first to last, so when it is gone its lender knows what the buffer holds.
#[derive(Drop)]
pub struct Line<'a> {
    room: &'a mut [u8],
    held: usize,
    ghost within: { held ≤ length room.now },
}

impl<'a> Line<'a> {
    // A line that has no bytes yet, in this buffer.
    pub fn new(room: &'a mut [u8]) -> Line<'a>
        ensures same_room { result.room.ghost_name ≡ room.entry.ghost_name }
        ensures memory { result.room.now ≡ room.old }
        ensures empty { result.held ≡ 0 }
    {
        Line { room, held: 0 }
    }

    // The bytes that are held.
    pub fn text(&self) -> &[u8]
        ensures { result.now ≡ take self.now.held self.now.room.now }
    {
        &self.room[0..self.held]
    }

    // Begins the next line.
    pub fn clear(&mut self)
        ensures same_room { self.new.room.ghost_name ≡ self.old.room.ghost_name }
        ensures memory { self.new.room.now ≡ self.old.room.now }
        ensures empty { self.new.held ≡ 0 }
    {
        self.held = 0;
    }

    // Puts more bytes after those that are held, as far as there is room.
    pub fn hold(&mut self, more: &[u8])
        ensures same_room { self.new.room.ghost_name ≡ self.old.room.ghost_name }
        ensures answer { Held self.old.room.now self.old.held more.now self.new.held self.new.room.now }
    {
        self.held = hold(self.room, self.held, more);
    }
}
