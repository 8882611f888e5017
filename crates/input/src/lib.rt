// Typed lines from a reader, and whole buffers. A line ends at a line feed, with a carriage return before it or not; the last may lack both. What a read
// gives is used at once, so that a person at a terminal is answered after each line.
#![tactic(auto)]

ghost use Rattle.std.specs.Prelude.{◌≡◌, ◌==◌, true, false, not, List, [], ◌∷◌, ◌++◌, ℕ, ◌≤◌, ◌<◌, eqb, leb, ltb, length, take, position, IfOk, OnOk, OnErr, MatchOption};
ghost use Rattle.std.specs.Io.KnownBytes.{Consumes, IsAtEnd, Keeps};
ghost use Rattle.std.specs.Io.{ReadsAtMost};
ghost use Rattle.lists.specs.Choice.{both};
ghost use Rattle.input.specs.Marks.{longest, mark_in, length_of, rest_of, piece_of, left_of, is_marked, is_known};
ghost use Rattle.input.specs.declared.Taken.TheVariants.{Ended};
ghost use Rattle.input.specs.Each.{Shows, unread, EachLine, EachBlock};
ghost use Rattle.input.specs.Held.{Holds, taken_of, within, Told, CutOff, StandsIn};

use std::io;
use std::io::Read;

// The longest line, without its end mark.
const LONGEST: usize = 65536;

// Room for a line with a carriage return.
pub const LINE_ROOM: usize = LONGEST + 1;

// Room for what is read at once.
pub const CHUNK: usize = 65536;

// What is still to be taken: the bytes of the chunk from `from` to `end`, and, where `open`, what further reads give.
#[derive(Clone, Copy)]
pub struct Source {
    pub from: usize,
    pub end: usize,
    pub open: bool,
}

// A line and its length, a line that is too long, or the end of the input. This says where in the buffer a line is, for a caller who has the buffer;
// `Typed` hands the line's bytes on to a closure, which the end of the input does not call.
#[derive(Clone, Copy)]
pub enum Taken {
    Line(usize),
    TooLong,
    Ended,
}

impl Source {
    // Nothing is read yet.
    pub fn new() -> Self
        ensures { (result.from ≡ 0) × (result.end ≡ 0) × (result.open ≡ true) }
    {
        Source {
            from: 0,
            end: 0,
            open: true,
        }
    }

    // Reads once. Where that gives nothing, the input has ended.
    fn refill<R: Read>(&mut self, reader: &mut R, chunk: &mut [u8]) -> io::Result<()>
        ensures given { IfOk result (λ _. (self.new.from ≡ 0) × (self.new.end ≤ length chunk.new) × (self.new.open ≡ ltb 0 self.new.end)) }
        ensures failed { OnErr result (Keeps (R.remaining reader.old) (R.remaining reader.new)) }
    {
        let n = reader.read(chunk)?;
        *self = Source {
            from: 0,
            end: n,
            open: 0 < n,
        };
        Ok(())
    }

    // Whether a chunk of that many bytes has some that are still to be taken.
    fn has_bytes(&self, size: usize) -> bool
        ensures { result ≡ both (ltb self.now.from self.now.end) (leb self.now.end size) }
    {
        self.from < self.end && self.end <= size
    }

    // Takes what the chunk still has, up to a line feed, and says whether there was one. A source that is not of this chunk has nothing.
    fn take_piece(&mut self, chunk: &[u8], line: &mut [u8], held: &mut usize) -> bool
        ensures by_index { (xs : List ℕ) → Holds line.old held.old xs → Holds line.new held.new (xs ++ piece_of (rest_of self.old chunk.now)) }
        ensures marked_value { result ≡ is_marked (rest_of self.old chunk.now) }
        ensures chunk_value { rest_of self.new chunk.now ≡ left_of (rest_of self.old chunk.now) }
        ensures open_value { self.new.open ≡ self.old.open }
    {
        if !self.has_bytes(chunk.len()) {
            return false;
        }
        let bytes = &chunk[self.from..self.end];
        match first_mark(bytes) {
            Some(n) => {
                *held = keep(&bytes[..n], line, *held);
                self.from += n + 1;
                true
            }
            None => {
                *held = keep(bytes, line, *held);
                self.from = self.end;
                false
            }
        }
    }
}

// The place of the first line feed.
fn first_mark(bytes: &[u8]) -> Option<usize>
    ensures { result ≡ position (λ b. b == 10) bytes.now }
{
    bytes.iter().position(|b| *b == b'\n')
}

// Some bytes more of a line. Where there is no room for all of them, the count says so: it is one more than the room.
fn keep(bytes: &[u8], line: &mut [u8], held: usize) -> usize
    ensures { (xs : List ℕ) → Holds line.old held xs → Holds line.new result (xs ++ bytes.now) }
{
    if line.len() < held {
        return held;
    }
    let n = bytes.len().min(line.len() - held);
    line[held..held + n].copy_from_slice(&bytes[..n]);
    if n < bytes.len() {
        return line.len() + 1;
    }
    held + n
}

// How many of the bytes before a line feed, or before the end of the input, are the line's.
fn length_of(bytes: &[u8], marked: bool) -> usize
    ensures { result ≡ length_of bytes.now marked }
{
    match bytes {
        [rest @ .., b'\r'] if marked => rest.len(),
        _ => bytes.len(),
    }
}

// No bytes before the end of the input are no line.
fn is_end(held: usize, marked: bool) -> bool
    ensures { result ≡ both (eqb held 0) (not marked) }
{
    held == 0 && !marked
}

// The reply of the bytes held.
fn taken_of(line: &[u8], held: usize, marked: bool) -> Taken
    ensures by_index { (xs : List ℕ) → longest < length line.now → Holds line.now held xs → result ≡ taken_of xs marked }
    ensures within { within result (length line.now) }
{
    if is_end(held, marked) {
        return Taken::Ended;
    }
    if line.len() < held {
        return Taken::TooLong;
    }
    let n = length_of(&line[..held], marked);
    if LONGEST < n {
        return Taken::TooLong;
    }
    Taken::Line(n)
}

// The next line, at the start of `line`, which has LINE_ROOM places. A read that fails is passed on, and nothing else is an error: a line that
// is at hand never is one. `line` then holds a beginning of the line, and the source stands as it was.
// Rejected: a line feed in a line; a byte lost that the chunk has at entry, of this line or of a later one; a byte skipped behind a line feed
// that a read gave; the carriage return of an end mark kept; a line cut short in silence, or the end told, by a source that is still open.
pub fn next_line<R: Read>(
    reader: &mut R,
    source: &mut Source,
    chunk: &mut [u8],
    line: &mut [u8],
) -> io::Result<Taken>
    ensures told { IfOk result (λ t. Told source.old chunk.old t source.new chunk.new line.new) }
    ensures chunk_after { OnOk result (is_known source.old chunk.old ≡ true → rest_of source.new chunk.new ≡ left_of (rest_of source.old chunk.old)) }
    ensures within { IfOk result (λ t. within t (length line.new)) }
    ensures failed { OnErr result (CutOff source.old chunk.old line.new) }
    ensures kept { OnErr result (source.new ≡ source.old) }
{
    let mut now = *source;
    let mut held: usize = 0;
    for _read in 0..u64::MAX {
        let marked = now.take_piece(chunk, line, &mut held);
        if marked || !now.open {
            *source = now;
            return Ok(taken_of(line, held, marked));
        }
        now.refill(reader, chunk)?;
    }
    *source = now;
    Ok(Taken::TooLong)
}

// Reads until the buffer is full or the input ends; gives how many bytes stand at its start. A read that fails is passed on, and nothing else
// is an error: what was read before it stands at the start.
pub fn read_full<R: Read>(reader: &mut R, buffer: &mut [u8]) -> io::Result<usize>
    ensures in_bounds { ReadsAtMost result buffer.new }
    ensures bytes { IfOk result (λ n. Consumes (R.remaining reader.old) (R.remaining reader.new) (take n buffer.new)) }
    ensures ended { IfOk result (λ n. n < length buffer.new → IsAtEnd (R.remaining reader.new)) }
    ensures failed { OnErr result (StandsIn (R.remaining reader.old) (R.remaining reader.new) buffer.new) }
{
    let mut done: usize = 0;
    // The count is the answer, and a read may give less than is asked, so that no `for` fits.
    while done < buffer.len() {
        let n = reader.read(&mut buffer[done..])?;
        if n == 0 {
            break;
        }
        done += n;
    }
    Ok(done)
}

// What was typed: the bytes of a line, or that it is too long.
pub enum Typed<'a> {
    Line(&'a [u8]),
    TooLong,
}

// What is handed on of a reply; nothing at the end of the input.
fn typed_of<'a>(taken: Taken, line: &'a [u8]) -> Option<Typed<'a>>
    requires { within taken (length line.now) }
    ensures { MatchOption result (taken ≡ Ended) (Shows taken line.now) }
{
    match taken {
        Taken::Line(n) => Some(Typed::Line(&line[..n])),
        Taken::TooLong => Some(Typed::TooLong),
        Taken::Ended => None,
    }
}

// Hands each line that is typed to the closure as soon as it is read, until the closure says false or the input ends.
// The clause rejects nothing yet, since it names neither what the reads give nor the closure behind its last call: each result is also that of an
// input that ends, or of a read that fails, before the first line. What `next_line` and `typed_of` hand on is in their own contracts.
pub fn each_line<R: Read, F: FnMut(Typed<'_>) -> io::Result<bool>>(
    reader: &mut R,
    mut answer: F,
) -> io::Result<()>
    requires { F.IsAlwaysCallable answer }
    ensures { (chunk : List ℕ) × EachLine F.step 18446744073709551615 unread chunk answer result }
{
    let mut chunk = [0u8; CHUNK];
    let mut line = [0u8; LINE_ROOM];
    let mut source = Source::new();
    for _line in 0..u64::MAX {
        let taken = next_line(reader, &mut source, &mut chunk, &mut line)?;
        match typed_of(taken, &line) {
            Some(typed) => {
                let more = answer(typed)?;
                if !more {
                    return Ok(());
                }
            }
            None => return Ok(()),
        }
    }
    Ok(())
}

// Hands each block that is read to the closure, as many bytes as the buffer has; the last may be shorter.
// Rejected: the buffer's bytes behind a last block handed on with it; a call's error kept back.
pub fn each_block<R: Read, F: FnMut(&[u8]) -> io::Result<()>>(
    reader: &mut R,
    buffer: &mut [u8],
    mut answer: F,
) -> io::Result<()>
    requires { F.IsAlwaysCallable answer }
    ensures { EachBlock F.step (length buffer.old) 18446744073709551615 (R.remaining reader.old) answer result (R.remaining reader.new) }
{
    for _block in 0..u64::MAX {
        let n = read_full(reader, buffer)?;
        if n == 0 {
            return Ok(());
        }
        answer(&buffer[..n])?;
    }
    Ok(())
}
