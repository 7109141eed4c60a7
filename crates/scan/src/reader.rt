// How a text is read. The scanner's steps are its methods (parts.rt, mark.rt).
ghost use Rattle.std.specs.Prelude.{◌≡◌, true};
ghost use Rattle.grammar.specs.Meaning.{is_radix};

// In a radix, with a `_` after a digit skipped or not. The text stands beside it: a reader that holds it is passed by
// reference, and the readers of short texts miss their speed.
#[derive(Clone, Copy)]
pub(crate) struct Reader {
    pub(crate) radix: u32,
    pub(crate) skip: bool,
    ghost legal: { is_radix radix ≡ true },
}
