// Two-byte cells in byte slices, low byte first.
#![tactic(auto)]

ghost use Rattle.std.specs.Prelude.{◌≡◌, ◌+◌, ◌*◌, ◌<◌, length};
ghost use Rattle.cells.specs.Cell.{cell_at, put_cell, bytes_of, equal};

// Cell i.
pub fn cell(s: &[u8], i: usize) -> u32
    requires { 2 * i + 1 < length s.now }
    ensures { (result ≡ cell_at s.now i) × (result < 65536) }
{
    u32::from(u16::from_le_bytes([s[2 * i], s[2 * i + 1]]))
}

// v, modulo 65,536, in cell i.
pub fn put(s: &mut [u8], i: usize, v: u32)
    requires { 2 * i + 1 < length s.old }
    ensures { s.new ≡ put_cell s.old i v }
{
    let [low, high] = ((v % 65536) as u16).to_le_bytes();
    s[2 * i] = low;
    s[2 * i + 1] = high;
}

// The values, one after the other, as cells that fill out.
pub fn write(out: &mut [u8], values: &[u32])
    requires { length out.old ≡ 2 * length values.now }
    ensures { out.new ≡ bytes_of values.now }
{
    for (i, v) in values.iter().enumerate() {
        put(out, i, *v);
    }
}

// The bytes of from fill out.
pub fn copy(from: &[u8], out: &mut [u8])
    requires { length from.now ≡ length out.old }
    ensures { out.new ≡ from.now }
{
    // No `copy_from_slice`, with which an archive for C would need `memmove`.
    for i in 0..from.len() {
        out[i] = from[i];
    }
}

// Whether two slices hold the same bytes.
#[tactic(auto, using(crate::proofs::Laws::equal_pointwise))]
pub fn same(x: &[u8], y: &[u8]) -> bool
    ensures { result ≡ equal x.now y.now }
{
    x == y
}
