// A conversation on standard input and output, line by line. Chunks are read as bytes and cut at line feeds; nothing is
// decoded.
use desk::lines::{Line, find_line_feed};
use std::alloc::Global;
use std::io;
use std::io::{BufRead, BufReader, BufWriter, Error, ErrorKind, Stdin, Stdout, Write};

// What a chunk had of a line.
enum Part {
    // There is no more input.
    End,
    // The line goes on.
    More,
    // The line ended.
    Line,
}

#[derive(Drop)]
pub struct Conversation<'a> {
    input: BufReader<Stdin>,
    output: BufWriter<Stdout>,
    line: Line<'a>,
}

impl<'a> Conversation<'a> {
    // One that has read nothing yet, and that holds lines in this buffer.
    pub fn new(heap: Global, input: Stdin, output: Stdout, room: &'a mut [u8]) -> io::Result<Self> {
        Ok(Conversation {
            input: BufReader::new(heap, input)?,
            output: BufWriter::new(heap, output)?,
            line: Line::new(room),
        })
    }

    // Takes what the next chunk has of the line.
    fn take_part(&mut self) -> io::Result<Part> {
        let chunk = self.input.fill_buf()?;
        if chunk.is_empty() {
            return Ok(Part::End);
        }
        match find_line_feed(chunk) {
            Some(end) => {
                self.line.hold(&chunk[0..end]);
                self.input.consume(end + 1);
                Ok(Part::Line)
            }
            None => {
                let length = chunk.len();
                self.line.hold(chunk);
                self.input.consume(length);
                Ok(Part::More)
            }
        }
    }

    // Reads the next line, as far as there is room; false at the end of input. Answers are written out before each read
    // that may have to wait.
    fn read_line(&mut self) -> io::Result<bool> {
        self.line.clear();
        // By count: input may have no end, and a loop must have one.
        for _ in 0..u64::MAX {
            if self.input.buffer().is_empty() {
                self.output.flush()?;
            }
            match self.take_part()? {
                Part::More => {}
                Part::Line => return Ok(true),
                Part::End => return Ok(!self.line.text().is_empty()),
            }
        }
        Err(Error::from(ErrorKind::TimedOut))
    }

    // The next line, as far as there is room; none at the end of input.
    pub fn next_line(&mut self) -> io::Result<Option<&[u8]>> {
        if self.read_line()? {
            return Ok(Some(self.line.text()));
        }
        Ok(None)
    }

    // Writes an answer.
    pub fn answer(&mut self, text: &[u8]) -> io::Result<()> {
        self.output.write_all(text)
    }

    // Writes out the answers so far.
    pub fn end(&mut self) -> io::Result<()> {
        self.output.flush()
    }
}
