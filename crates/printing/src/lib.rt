// What programs write to standard output, said once for all of them: texts, numbers and lines. Each is handed whole to a writer, which takes
// it by as many writes as it needs; a write that fails is passed on. A writer that tells which bytes it holds then holds these behind what it
// held, or a beginning of them where a write failed.
#![tactic(auto)]

ghost use Rattle.std.specs.Prelude.{[], ◌∷◌, OnOk, OnErr};
ghost use Rattle.std.specs.Io.KnownBytes.{Appends};
ghost use Rattle.printing.specs.Part.{AppendsPart};
ghost use Rattle.formatting.specs.Text.{numeral, each_after};
ghost use Rattle.formatting.specs.Listing.{refusal_text, uniqueness_text};

use formatting::Line;
use sequence::{Refusal, Uniqueness};
use std::io;
use std::io::{ErrorKind, Write};

// Where a write fails a beginning of the text may have been taken, and a writer that takes nothing counts as one that fails. The loop is not
// `write_all`, which promises nothing where it fails, as `failed` does, and writes again where a write is interrupted.
pub fn text<W: Write>(out: &mut W, s: &[u8]) -> io::Result<()>
    ensures written { OnOk result (Appends (W.contents out.old) (W.contents out.new) s.now) }
    ensures failed { OnErr result (AppendsPart (W.contents out.old) (W.contents out.new) s.now) }
{
    let mut rest = s;
    while !rest.is_empty() {
        let n = out.write(rest)?;
        if n == 0 {
            return Err(io::Error::from(ErrorKind::WriteZero));
        }
        rest = &rest[n..];
    }
    Ok(())
}

// A line, or a part of one.
pub fn line<W: Write>(out: &mut W, line: &Line) -> io::Result<()>
    ensures written { OnOk result (Appends (W.contents out.old) (W.contents out.new) line.now) }
    ensures failed { OnErr result (AppendsPart (W.contents out.old) (W.contents out.new) line.now) }
{
    text(out, line.as_bytes())
}

pub fn number<W: Write>(out: &mut W, n: u64) -> io::Result<()>
    ensures written { OnOk result (Appends (W.contents out.old) (W.contents out.new) (numeral n)) }
    ensures failed { OnErr result (AppendsPart (W.contents out.old) (W.contents out.new) (numeral n)) }
{
    let mut digits = Line::new();
    digits.number(n);
    line(out, &digits)
}

// A number behind a blank.
pub fn field<W: Write>(out: &mut W, n: u64) -> io::Result<()>
    ensures written { OnOk result (Appends (W.contents out.old) (W.contents out.new) (each_after (32 ∷ []) (n ∷ []))) }
    ensures failed { OnErr result (AppendsPart (W.contents out.old) (W.contents out.new) (each_after (32 ∷ []) (n ∷ []))) }
{
    let mut digits = Line::new();
    digits.number_after(b' ', n);
    line(out, &digits)
}

// A refusal by its number, with its place; the line may go on.
pub fn refused<W: Write>(out: &mut W, r: Refusal) -> io::Result<()>
    ensures written { OnOk result (Appends (W.contents out.old) (W.contents out.new) (refusal_text r)) }
    ensures failed { OnErr result (AppendsPart (W.contents out.old) (W.contents out.new) (refusal_text r)) }
{
    line(out, &formatting::refusal_text(r))
}

// Whether a register is the only one, in words; the line may go on.
pub fn uniqueness<W: Write>(out: &mut W, w: Uniqueness) -> io::Result<()>
    ensures written { OnOk result (Appends (W.contents out.old) (W.contents out.new) (uniqueness_text w)) }
    ensures failed { OnErr result (AppendsPart (W.contents out.old) (W.contents out.new) (uniqueness_text w)) }
{
    line(out, &formatting::uniqueness_text(w))
}
