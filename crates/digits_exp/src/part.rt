// A part of the text between two places, total: past its end there is nothing.
ghost use Rattle.std.specs.Prelude.{◌≡◌};
ghost use Rattle.laws.specs.Lists.{part};

// The bytes from `from` up to `to`.
pub(crate) fn between(run: &[u8], from: usize, to: usize) -> &[u8]
    ensures { result.now ≡ part run.now from to }
{
    digits::part::head(digits::part::rest(run, from), to.saturating_sub(from))
}
