// Answers typed lines, "mod 9: 6,3,1,-4,6": the listing's header, then for each line the listing's line, or its refusal.
#![tactic(auto)]

use input::Typed;
use sequence::Refusal;
use std::io;
use std::io::{Read, Write};

// Each answer is written as soon as its line is read, so that a person at a terminal has it before the next line.
fn answer<R: Read, W: Write>(reader: &mut R, out: &mut W) -> io::Result<()> {
    printing::line(out, &formatting::header_line())?;
    input::each_line(reader, |typed| {
        let line = match typed {
            Typed::Line(line) => formatting::typed_line(line),
            Typed::TooLong => formatting::refusal_line(Refusal::Buffer),
        };
        printing::line(out, &line)?;
        Ok(true)
    })
}

fn main(rt: HostRuntime) -> io::Result<()> {
    answer(&mut rt.stdin(), &mut rt.stdout())
}
