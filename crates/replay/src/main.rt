// Replays a script of calls: reads the calls from standard input, makes each through the library and writes a line of text for it.
// reference/README.md has the format of the script and of the text; the second program says what the text has to be.
#![tactic(auto)]

ghost use Rattle.std.specs.Prelude.{◌≤◌};
ghost use Rattle.steps.specs.Sizes.{log_words};

use batch::Batch;
use sequence::{QUERY_BYTES, Refusal, Report, Sequence};
use std::io;
use std::io::{Read, Write};
use steps::{LOG, StepRecord};

// The lengths of a call's buffers have two bytes each, so this holds every one.
const ROOM: usize = 65536;

// Where an FNV-1a hash of 32 bits starts, and what it multiplies by.
const START: u32 = 2166136261;

const FACTOR: u32 = 16777619;

// The operations, in the order of their numbers in a script.
#[derive(Clone, Copy)]
enum Operation {
    Open,
    Push,
    Register,
    Profile,
    Verify,
    Generate,
    Synthesize,
    LookUp,
    Forge,
    Trace,
    ReadLine,
    PushAll,
    Merge,
    PeriodLength,
    Enumerate,
    Tally,
    LookUpBatch,
}

impl TryFrom<u8> for Operation {
    type Error = Stop;

    fn try_from(number: u8) -> Result<Operation, Stop> {
        match number {
            0 => Ok(Operation::Open),
            1 => Ok(Operation::Push),
            2 => Ok(Operation::Register),
            3 => Ok(Operation::Profile),
            4 => Ok(Operation::Verify),
            5 => Ok(Operation::Generate),
            6 => Ok(Operation::Synthesize),
            7 => Ok(Operation::LookUp),
            8 => Ok(Operation::Forge),
            9 => Ok(Operation::Trace),
            10 => Ok(Operation::ReadLine),
            11 => Ok(Operation::PushAll),
            12 => Ok(Operation::Merge),
            13 => Ok(Operation::PeriodLength),
            14 => Ok(Operation::Enumerate),
            15 => Ok(Operation::Tally),
            16 => Ok(Operation::LookUpBatch),
            _ => Err(Stop::Unknown(number)),
        }
    }
}

// A call's header.
#[derive(Clone, Copy)]
struct Call {
    operation: Operation,
    fill: u8,
    number: u32,
    x: u16,
    y: u16,
    z: u16,
    l: u16,
}

impl TryFrom<[u8; 16]> for Call {
    type Error = Stop;

    fn try_from(h: [u8; 16]) -> Result<Call, Stop> {
        Ok(Call {
            operation: Operation::try_from(h[0])?,
            fill: h[1],
            number: u32::from_le_bytes([h[4], h[5], h[6], h[7]]),
            x: u16::from_le_bytes([h[8], h[9]]),
            y: u16::from_le_bytes([h[10], h[11]]),
            z: u16::from_le_bytes([h[12], h[13]]),
            l: u16::from_le_bytes([h[14], h[15]]),
        })
    }
}

// Why no more calls are made: the script ends, whether behind a call or within one, or has something that is no call, or reading or writing
// fails.
#[derive(Drop)]
enum Stop {
    Ended,
    CutShort,
    BadForge,
    Unknown(u8),
    Failed(io::Error),
}

impl From<io::Error> for Stop {
    fn from(e: io::Error) -> Stop {
        Stop::Failed(e)
    }
}

// What a call gives that is not refused, in the words of the text.
trait Reply: Drop {
    fn print<W: Write>(self, out: &mut W) -> io::Result<()>;
}

impl Reply for () {
    fn print<W: Write>(self, out: &mut W) -> io::Result<()> {
        printing::text(out, b"ok")
    }
}

// A length.
impl Reply for u32 {
    fn print<W: Write>(self, out: &mut W) -> io::Result<()> {
        printing::text(out, b"length ")?;
        printing::number(out, u64::from(self))
    }
}

impl Reply for Report {
    fn print<W: Write>(self, out: &mut W) -> io::Result<()> {
        self.length.print(out)?;
        printing::text(out, b" ")?;
        printing::uniqueness(out, self.uniqueness)
    }
}

// The first place where a candidate differs from a query.
#[derive(Clone, Copy)]
struct Verdict(Option<u32>);

impl Reply for Verdict {
    fn print<W: Write>(self, out: &mut W) -> io::Result<()> {
        match self.0 {
            None => printing::text(out, b"yes"),
            Some(i) => {
                printing::text(out, b"no ")?;
                printing::number(out, u64::from(i))
            }
        }
    }
}

// The place of a query's record in a catalogue.
#[derive(Clone, Copy)]
struct Place(Option<usize>);

impl Reply for Place {
    fn print<W: Write>(self, out: &mut W) -> io::Result<()> {
        match self.0 {
            None => printing::text(out, b"made"),
            Some(i) => {
                printing::text(out, b"found ")?;
                printing::number(out, i as u64)
            }
        }
    }
}

impl Reply for Batch {
    fn print<W: Write>(self, out: &mut W) -> io::Result<()> {
        printing::text(out, b"found ")?;
        printing::number(out, self.found as u64)?;
        printing::text(out, b" made ")?;
        printing::number(out, self.made as u64)?;
        printing::text(out, b" refused ")?;
        printing::number(out, self.refused as u64)
    }
}

// A buffer that a call writes to, with a byte in each place.
fn filled(room: &mut [u8; ROOM], length: u16, byte: u8) -> &mut [u8] {
    let part = &mut room[..usize::from(length)];
    part.fill(byte);
    part
}

// An FNV-1a hash of 32 bits with more bytes in it.
fn mixed(hash: u32, bytes: &[u8]) -> u32 {
    bytes
        .iter()
        .fold(hash, |h, b| (h ^ u32::from(*b)).wrapping_mul(FACTOR))
}

fn hash(bytes: &[u8]) -> u32 {
    mixed(START, bytes)
}

// A cell's two bytes more. (A cell of a sequence is below 65,536.)
fn mixed_cell(hash: u32, v: u32) -> u32 {
    let [low, high, _, _] = v.to_le_bytes();
    mixed(hash, &[low, high])
}

// The hash of the 260 bytes that write a sequence down.
fn hash_sequence(s: &Sequence) -> u32 {
    let start = mixed_cell(mixed_cell(START, s.modulus), s.count);
    s.terms.iter().fold(start, |h, t| mixed_cell(h, *t))
}

// A record's eight numbers more.
fn mixed_record(hash: u32, x: StepRecord) -> u32 {
    [x.power, x.k, x.row, x.length, x.u, x.theta, x.g, x.case]
        .iter()
        .fold(hash, |h, n| mixed(h, &n.to_le_bytes()))
}

// The hash of the first records of a log.
fn hash_log(log: &[u64; LOG], count: usize) -> u32
    requires { count ≤ log_words }
{
    let mut h = START;
    for i in 0..count {
        h = mixed_record(h, steps::entry(log, i));
    }
    h
}

// The hash of the bytes of numbers, eight for each.
fn hash_numbers(numbers: &[u64]) -> u32 {
    numbers
        .iter()
        .fold(START, |h, n| mixed(h, &n.to_le_bytes()))
}

// Reader, writer and the sequence that is held.
#[derive(Drop)]
struct Replay<R, W> {
    reader: R,
    out: W,
    sequence: Sequence,
}

impl<R: Read, W: Write> Replay<R, W> {
    // Fills a buffer from the script.
    fn read(&mut self, buffer: &mut [u8]) -> Result<(), Stop> {
        if input::read_full(&mut self.reader, buffer)? < buffer.len() {
            return Err(Stop::CutShort);
        }
        Ok(())
    }

    // The next bytes of the script, as many as the array has.
    fn read_array<const N: usize>(&mut self) -> Result<[u8; N], Stop> {
        let mut bytes = [0u8; N];
        self.read(&mut bytes)?;
        Ok(bytes)
    }

    // The bytes that a call is handed.
    fn handed<'a>(&mut self, room: &'a mut [u8; ROOM], length: u16) -> Result<&'a [u8], Stop> {
        let part = &mut room[..usize::from(length)];
        self.read(part)?;
        Ok(part)
    }

    // Writes the line of a call: what stands before the reply, the reply, and hashes.
    fn line<T: Reply>(
        &mut self,
        before: &[u8],
        reply: Result<T, Refusal>,
        hashes: &[u32],
    ) -> Result<(), Stop> {
        printing::text(&mut self.out, before)?;
        match reply {
            Ok(given) => given.print(&mut self.out)?,
            Err(r) => printing::refused(&mut self.out, r)?,
        }
        self.hashes(hashes)
    }

    // The end of a line.
    fn hashes(&mut self, hashes: &[u32]) -> Result<(), Stop> {
        for h in hashes {
            write!(self.out, " {h:08x}")?;
        }
        printing::text(&mut self.out, b"\n")?;
        Ok(())
    }

    // Writes the line of a call that may change the sequence.
    fn held(&mut self, before: &[u8], outcome: Result<(), Refusal>) -> Result<(), Stop> {
        let h = hash_sequence(&self.sequence);
        self.line(before, outcome, &[h])
    }

    fn open(&mut self, modulus: u32) -> Result<(), Stop> {
        let o = Sequence::open(modulus);
        self.sequence = o.sequence;
        self.held(b"open ", o.outcome)
    }

    fn push(&mut self, term: u32) -> Result<(), Stop> {
        let r = self.sequence.push(term);
        self.held(b"push ", r)
    }

    fn register(&mut self, c: Call) -> Result<(), Stop> {
        let mut a = [0u8; ROOM];
        let mut b = [0u8; ROOM];
        let a = filled(&mut a, c.x, c.fill);
        let b = filled(&mut b, c.y, c.fill);
        let r = self.sequence.register(a, b);
        self.line(b"register ", r, &[hash(a), hash(b)])
    }

    fn profile(&mut self, c: Call) -> Result<(), Stop> {
        let mut cells = [0u8; ROOM];
        let cells = filled(&mut cells, c.x, c.fill);
        let r = self.sequence.profile(cells);
        self.line(b"profile ", r, &[hash(cells)])
    }

    fn verify(&mut self, c: Call) -> Result<(), Stop> {
        let mut query = [0u8; ROOM];
        let mut a = [0u8; ROOM];
        let mut b = [0u8; ROOM];
        let query = self.handed(&mut query, c.x)?;
        let a = self.handed(&mut a, c.y)?;
        let b = self.handed(&mut b, c.z)?;
        let r = candidate::verify(query, a, b, c.number);
        self.line(b"verify ", r.map(Verdict), &[])
    }

    fn generate(&mut self, c: Call) -> Result<(), Stop> {
        let mut a = [0u8; ROOM];
        let mut b = [0u8; ROOM];
        let mut cells = [0u8; ROOM];
        let cells = filled(&mut cells, c.z, c.fill);
        let a = self.handed(&mut a, c.x)?;
        let b = self.handed(&mut b, c.y)?;
        let r = candidate::generate(c.number, a, b, u32::from(c.l), cells);
        self.line(b"generate ", r, &[hash(cells)])
    }

    fn synthesize(&mut self, c: Call) -> Result<(), Stop> {
        let mut query = [0u8; ROOM];
        let mut entry = [0u8; ROOM];
        let entry = filled(&mut entry, c.y, c.fill);
        let query = self.handed(&mut query, c.x)?;
        let r = catalogue::synthesize(query, entry);
        self.line(b"synthesize ", r, &[hash(entry)])
    }

    fn look_up(&mut self, c: Call) -> Result<(), Stop> {
        let mut query = [0u8; ROOM];
        let mut records = [0u8; ROOM];
        let mut entry = [0u8; ROOM];
        let entry = filled(&mut entry, c.z, c.fill);
        let query = self.handed(&mut query, c.x)?;
        let records = self.handed(&mut records, c.y)?;
        let r = catalogue::look_up(query, records, u64::from(c.number), entry);
        self.line(b"look_up ", r.map(Place), &[hash(entry)])
    }

    // Holds whatever sequence the script writes down.
    fn forge(&mut self, c: Call) -> Result<(), Stop> {
        if usize::from(c.x) != QUERY_BYTES {
            return Err(Stop::BadForge);
        }
        let query = self.read_array::<QUERY_BYTES>()?;
        self.sequence = sequence::check(&query).sequence;
        printing::text(&mut self.out, b"forge ok")?;
        let h = hash_sequence(&self.sequence);
        self.hashes(&[h])
    }

    // A sheet is not lent: its records are those of the log, and the room only counts them.
    fn trace(&mut self, c: Call) -> Result<(), Stop> {
        let mut a = [0u8; ROOM];
        let mut b = [0u8; ROOM];
        let mut log = [0u64; LOG];
        let a = filled(&mut a, c.x, c.fill);
        let b = filled(&mut b, c.y, c.fill);
        let r = self.sequence.work(a, b, c.number as usize, &mut log);
        let records = match r {
            Ok(w) => hash_log(&log, w.count),
            Err(_) => START,
        };
        self.line(b"trace ", r.map(|w| w.report), &[hash(a), hash(b), records])
    }

    fn read_line(&mut self, c: Call) -> Result<(), Stop> {
        let mut line = [0u8; ROOM];
        let mut query = [0u8; ROOM];
        let query = filled(&mut query, c.y, c.fill);
        let line = self.handed(&mut line, c.x)?;
        let r = lines::read_line(line, query);
        self.line(b"read_line ", r, &[hash(query)])
    }

    fn push_all(&mut self, c: Call) -> Result<(), Stop> {
        let mut list = [0u8; ROOM];
        let list = self.handed(&mut list, c.x)?;
        let p = column::push_all(self.sequence, list);
        self.sequence = p.sequence;
        printing::text(&mut self.out, b"push_all taken ")?;
        printing::number(&mut self.out, p.taken as u64)?;
        self.line(b" ", p.outcome, &[hash_sequence(&p.sequence), hash(list)])
    }

    fn merge(&mut self, c: Call) -> Result<(), Stop> {
        let mut first = [0u8; ROOM];
        let mut second = [0u8; ROOM];
        let mut query = [0u8; ROOM];
        let query = filled(&mut query, c.z, c.fill);
        let first = self.handed(&mut first, c.x)?;
        let second = self.handed(&mut second, c.y)?;
        let r = merge::merge(first, second, query);
        self.line(b"merge ", r, &[hash(query)])
    }

    fn period_length(&mut self, c: Call) -> Result<(), Stop> {
        let mut cells = [0u8; ROOM];
        let cells = self.handed(&mut cells, c.x)?;
        let r = period::period_length(cells);
        self.line(b"period_length ", r, &[hash(cells)])
    }

    fn enumerate(&mut self, c: Call) -> Result<(), Stop> {
        let mut query = [0u8; ROOM];
        let query = filled(&mut query, c.x, c.fill);
        let [c0, c1, c2, c3, n0, n1, n2, n3, n4, n5, n6, n7] = self.read_array::<12>()?;
        let count = u32::from_le_bytes([c0, c1, c2, c3]);
        let number = u64::from_le_bytes([n0, n1, n2, n3, n4, n5, n6, n7]);
        let r = enumeration::enumerate(c.number, count, number, query);
        self.line(b"enumerate ", r, &[hash(query)])
    }

    fn tally(&mut self, c: Call) -> Result<(), Stop> {
        let mut cells = [0u8; ROOM];
        let cells = filled(&mut cells, c.x, c.fill);
        let count = u32::from_le_bytes(self.read_array()?);
        let r = enumeration::tally(c.number, count, cells);
        self.line(b"tally ", r, &[hash(cells)])
    }

    // The replies are counted in numbers where a run has its length, and each byte of one is filled.
    fn look_up_batch(&mut self, c: Call) -> Result<(), Stop> {
        let mut queries = [0u8; ROOM];
        let mut records = [0u8; ROOM];
        let mut entries = [0u8; ROOM];
        let mut replies = [0u64; ROOM];
        let entries = filled(&mut entries, c.z, c.fill);
        let replies = &mut replies[..usize::from(c.l)];
        replies.fill(u64::from_le_bytes([c.fill; 8]));
        let queries = self.handed(&mut queries, c.x)?;
        let records = self.handed(&mut records, c.y)?;
        let r = batch::look_up_batch(queries, records, u64::from(c.number), entries, replies);
        self.line(
            b"look_up_batch ",
            r,
            &[hash(entries), hash_numbers(replies)],
        )
    }

    fn make(&mut self, c: Call) -> Result<(), Stop> {
        match c.operation {
            Operation::Open => self.open(c.number),
            Operation::Push => self.push(c.number),
            Operation::Register => self.register(c),
            Operation::Profile => self.profile(c),
            Operation::Verify => self.verify(c),
            Operation::Generate => self.generate(c),
            Operation::Synthesize => self.synthesize(c),
            Operation::LookUp => self.look_up(c),
            Operation::Forge => self.forge(c),
            Operation::Trace => self.trace(c),
            Operation::ReadLine => self.read_line(c),
            Operation::PushAll => self.push_all(c),
            Operation::Merge => self.merge(c),
            Operation::PeriodLength => self.period_length(c),
            Operation::Enumerate => self.enumerate(c),
            Operation::Tally => self.tally(c),
            Operation::LookUpBatch => self.look_up_batch(c),
        }
    }

    // Reads the next call of the script and makes it.
    fn next(&mut self) -> Result<(), Stop> {
        let mut header = [0u8; 16];
        let n = input::read_full(&mut self.reader, &mut header)?;
        if n == 0 {
            return Err(Stop::Ended);
        }
        if n < header.len() {
            return Err(Stop::CutShort);
        }
        self.make(Call::try_from(header)?)
    }

    // Tells why the calls stop.
    fn end(&mut self, stop: Stop) -> io::Result<()> {
        match stop {
            Stop::Ended => Ok(()),
            Stop::CutShort => printing::text(&mut self.out, b"script cut short\n"),
            Stop::BadForge => printing::text(&mut self.out, b"script bad forge\n"),
            Stop::Unknown(number) => {
                printing::text(&mut self.out, b"script unknown ")?;
                printing::number(&mut self.out, u64::from(number))?;
                printing::text(&mut self.out, b"\n")
            }
            Stop::Failed(e) => Err(e),
        }
    }

    // Makes the calls of the script in turn.
    fn run(&mut self) -> io::Result<()> {
        for _call in 0..u64::MAX {
            if let Err(stop) = self.next() {
                return self.end(stop);
            }
        }
        Ok(())
    }
}

fn main(rt: HostRuntime) -> io::Result<()> {
    // Refused, so the sequence is the one of zeros.
    let sequence = Sequence::open(0).sequence;
    let mut replay = Replay {
        reader: rt.stdin(),
        out: rt.stdout(),
        sequence,
    };
    replay.run()
}
