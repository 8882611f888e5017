// The listing: queries on standard input, a header and a line for each on standard output.
#![tactic(auto)]

use sequence::QUERY_BYTES;
use std::io;
use std::io::{Read, Write};

fn list<R: Read, W: Write>(reader: &mut R, out: &mut W) -> io::Result<()> {
    printing::line(out, &formatting::header_line())?;
    let mut query = [0u8; QUERY_BYTES];
    input::each_block(reader, &mut query, |query| {
        printing::line(out, &formatting::query_line(query))
    })
}

fn main(rt: HostRuntime) -> io::Result<()> {
    list(&mut rt.stdin(), &mut rt.stdout())
}
