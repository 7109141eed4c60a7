// One line of the file: whether it holds a value, and what the literal reader makes of it.
ghost use Rattle.std.specs.Prelude.{◌≡◌};
ghost use Rattle.value_lines.specs.Meaning.{is_value};
ghost use Rattle.value_lines.specs.Literal.{line_value};

use format::Refusal;

// I1F15
const WIDTH: u32 = 16;

const FRAC: u32 = 15;

// Neither empty nor a comment.
pub(crate) fn is_value(line: &[u8]) -> bool
    ensures { result ≡ is_value line.now }
{
    !matches!(line, [] | [b'#', ..])
}

// The literal of a line. A strict raw of 16 bits loses nothing as one.
pub(crate) fn read_value(line: &[u8]) -> Result<i16, Refusal>
    ensures { result ≡ line_value line.now }
{
    let read = text::read_literal::<i64>(line, WIDTH, FRAC)?;
    Ok(read.raw as i16)
}
