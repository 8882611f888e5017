// Answers typed lines, "2 3": the census's header, then for each line the census's line of this modulus and count, or its refusal. A line
// that is anything else ends it.
#![tactic(auto)]

use formatting::Answered;
use input::Typed;
use std::io;
use std::io::{Read, Write};

// Each answer is written as soon as its line is read, so that a person at a terminal has it before the next line.
fn answer<R: Read, W: Write>(reader: &mut R, out: &mut W) -> io::Result<()> {
    printing::line(out, &formatting::census_header())?;
    input::each_line(reader, |typed| {
        let answered = match typed {
            Typed::Line(line) => formatting::pair_line(line),
            Typed::TooLong => Answered {
                line: formatting::no_pair_line(),
                going: false,
            },
        };
        printing::line(out, &answered.line)?;
        Ok(answered.going)
    })
}

fn main(rt: HostRuntime) -> io::Result<()> {
    answer(&mut rt.stdin(), &mut rt.stdout())
}
