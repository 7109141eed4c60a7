// The format of a call that names a number of bytes: the format's refusals first, then 5.
ghost use Rattle.std.specs.Prelude.{◌≡◌, ◌/◌, cond, IfOk, IfErr};
ghost use Rattle.format.specs.Meaning.{fault_of, LetsThrough, Refuses};
ghost use Rattle.exact.specs.Meaning.{or_else};
ghost use Rattle.byte_order.specs.Meaning.{buffer_fault, length_fault};

use format::{Format, Refusal};

// How many bytes a raw has.
pub(crate) fn size(width: u32) -> usize
    ensures { result ≡ width / 8 }
{
    (width / 8) as usize
}

// Where a raw's bytes have room in len places.
pub(crate) fn at_most(width: u32, frac: u32, len: usize) -> Result<Format, Refusal>
    ensures ok { IfOk result (λ x.
        LetsThrough (or_else (fault_of width frac) (buffer_fault width len)) width frac x.width x.frac) }
    ensures err { IfErr result (Refuses (or_else (fault_of width frac) (buffer_fault width len))) }
{
    met(width, frac, size(width) <= len)
}

// Where len bytes are a raw's.
pub(crate) fn exactly(width: u32, frac: u32, len: usize) -> Result<Format, Refusal>
    ensures ok { IfOk result (λ x.
        LetsThrough (or_else (fault_of width frac) (length_fault width len)) width frac x.width x.frac) }
    ensures err { IfErr result (Refuses (or_else (fault_of width frac) (length_fault width len))) }
{
    met(width, frac, len == size(width))
}

fn met(width: u32, frac: u32, right: bool) -> Result<Format, Refusal>
    ensures ok { IfOk result (λ x.
        LetsThrough (or_else (fault_of width frac) (cond right 0 5)) width frac x.width x.frac) }
    ensures err { IfErr result (Refuses (or_else (fault_of width frac) (cond right 0 5))) }
{
    let format = Format::new(width, frac)?;
    if !right {
        return Err(Refusal::WrongLength);
    }
    Ok(format)
}
