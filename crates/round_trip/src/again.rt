// Writing a raw of a format, then reading: the same raw. A format comes as its two numbers: the writer refuses what is
// none.
ghost use Rattle.round_trip.specs.Again.{SameRaw, ReadBack};

use format::{Answered, Manner, Raw};

// The raw written into `out` and read back; the writer's refusal where it refuses.
pub fn again<R: Raw>(raw: R, width: u32, frac: u32, manner: Manner, out: &mut [u8]) -> Answered<R>
    ensures { SameRaw R.kind raw width frac out.old result }
{
    let written = decimal::write(raw, width, frac, out)?;
    read_back(out, written.raw, width, frac, manner)
}

// The first n bytes, read; all of them where there are fewer. The count stands beside the buffer, as the writer answers
// it: `ReadBack` speaks of both.
fn read_back<R: Raw>(out: &[u8], n: u64, width: u32, frac: u32, manner: Manner) -> Answered<R>
    ensures { ReadBack R.kind out.now n width frac manner result }
{
    let end = (n as usize).min(out.len());
    text::read(&out[..end], width, frac, 10, manner)
}
