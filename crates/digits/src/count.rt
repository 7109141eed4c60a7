// Where a run is cut: counts of bytes, from which a caller makes a part of the text or an offset.
ghost use Rattle.std.specs.Prelude.{◌≡◌, reverse, length};
ghost use Rattle.digits.specs.Meaning.{is_und, take_while, head_of};

// How many `_` stand in front.
pub fn unds_front(run: &[u8]) -> usize
    ensures { result ≡ length (take_while is_und run.now) }
{
    run.iter().take_while(|b| **b == b'_').count()
}

// How many `_` stand behind.
pub(crate) fn unds_behind(run: &[u8]) -> usize
    ensures { result ≡ length (take_while is_und (reverse run.now)) }
{
    run.iter().rev().take_while(|b| **b == b'_').count()
}

// How many bytes there are up to the digit number `mid`, and with it: all where there are fewer digits.
pub fn place(run: &[u8], mid: usize) -> usize
    ensures { result ≡ length (head_of run.now mid) }
{
    let mut wanted = mid;
    for (i, b) in run.iter().enumerate() {
        if wanted == 0 {
            return i;
        }
        if *b != b'_' {
            wanted -= 1;
        }
    }
    run.len()
}
