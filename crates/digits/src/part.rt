// Parts of a run, total: past its end there is nothing, and that stands at its end.
ghost use Rattle.digits.specs.Meaning.{head_part, rest_part, PartAt};

// The first n bytes: n is asked for, and no length of the run.
pub fn head(run: &[u8], n: usize) -> &[u8]
    ensures { PartAt run.entry (head_part run.now n) result }
{
    &run[..n.min(run.len())]
}

// The bytes after the first n, asked for likewise.
pub fn rest(run: &[u8], n: usize) -> &[u8]
    ensures { PartAt run.entry (rest_part run.now n) result }
{
    &run[n.min(run.len())..]
}
