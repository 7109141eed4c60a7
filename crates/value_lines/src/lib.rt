// The value lines of a fitting file (01, module 9): how many there are, and the list of them, refused or not. A refused
// line ends no file. Inner functions of the fitting file.
#![tactic(auto)]

ghost use Rattle.std.specs.Prelude.{◌≡◌, true, ◌≤◌, ◌<◌, length};
ghost use Rattle.value_lines.specs.Meaning.{file_limit, is_value, values_of};
ghost use Rattle.value_lines.specs.Store.{AllEntered};

mod line;

const LINE_FEED: u8 = b'\n';

// How many value lines there are, refused ones too.
pub fn count(file: &[u8]) -> usize
    requires { length file.now ≤ file_limit }
    ensures { result ≡ length (values_of file.now) }
{
    file.split(|b| *b == LINE_FEED)
        .filter(|line| line::is_value(line))
        .count()
}

// The value lines of the file, in order, into the three slices that C lends: a raw is 0 where the line is refused, an
// answer 0 where it is not.
pub fn store(file: &[u8], lines: &mut [u32], raws: &mut [i16], answers: &mut [u32])
    requires short_file { length file.now ≤ file_limit }
    requires lines_room { length (values_of file.now) ≤ length lines.old }
    requires raws_room { length (values_of file.now) ≤ length raws.old }
    requires answers_room { length (values_of file.now) ≤ length answers.old }
    ensures { AllEntered (values_of file.now) lines.old raws.old
        answers.old lines.new raws.new answers.new }
{
    // a line more, an empty one, where LF ends the file: it holds no value
    for (n, (line, number)) in file
        .split(|b| *b == LINE_FEED)
        .zip(1..=u32::MAX)
        .filter(|(line, _)| line::is_value(line))
        .enumerate()
    {
        let (raw, answer) = match line::read_value(line) {
            Ok(raw) => (raw, 0),
            Err(refusal) => (0, refusal.number()),
        };
        lines[n] = number;
        raws[n] = raw;
        answers[n] = answer;
    }
}
