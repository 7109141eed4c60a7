// A refused line in words: what its answer means, and what to write instead. Answers are numbers here, as the list has
// them that C lends.

pub(crate) fn meaning(inner: u32) -> &'static str {
    match inner {
        4 => "the line is above 4096 bytes",
        10 => "the number is outside the range",
        11 => "there are no digits",
        12 => "the sign has no place there",
        13 => "a byte is no digit",
        14 => "an underscore has no place there",
        15 => "there is more than one point",
        16 => "a byte of the exponent is no digit",
        17 => "the exponent has no digits",
        18 => "there is more than one exponent",
        19 => "the exponent is out of range",
        _ => "the line is refused",
    }
}

pub(crate) fn instead(line: &[u8], inner: u32) -> &'static str {
    if line.ends_with(b"\r") {
        "the line without the CR at its end; save the file with LF line ends"
    } else if line.contains(&b',') {
        "a point, not a comma: 0.5"
    } else if line.starts_with(b"+") {
        "the number without +"
    } else if line.contains(&b' ') {
        "the number alone, without blanks; a comment has a line of its own that starts with #"
    } else if line.contains(&b'#') {
        "the number alone; a comment has a line of its own that starts with #"
    } else {
        by_answer(inner)
    }
}

fn by_answer(inner: u32) -> &'static str {
    match inner {
        4 => "one number with fewer digits",
        10 => "a number from -1 to 0.999969482421875, the range of I1F15",
        11 => "a number such as 0.5, or # first for a comment",
        12 => "a single - in front of the number, or no sign",
        14 => "digits without underscores, or underscores between digits only",
        15 => "one point only",
        19 => "an exponent from -2147483648 to 2147483647",
        _ => "a number such as 0.5, -0.25, 1e-3 or 0x0.8",
    }
}
