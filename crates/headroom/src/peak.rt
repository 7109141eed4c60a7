// Headroom: the samples that drive the sum furthest either way, and whether the filter clips on them.
ghost use Rattle.std.specs.Prelude.{◌≡◌, cond, map, ◌≤◌, length, take};
ghost use Rattle.filter.specs.Meaning.{most_taps};
ghost use Rattle.headroom.specs.Meaning.{by_sign, driven_of, driving, passes, clips_way, verdict_of, witness_of};
ghost use Rattle.headroom.specs.Head.{verdict_number};

use filter::taps::Taps;
use filter::{TAPS, sum};

// The two ways to clip.
#[derive(Clone, Copy)]
pub(crate) enum Way {
    High,
    Low,
}

// One number for a tap above 0, another for one below, 0 for a zero tap.
// By two tests: with a `match` on `cmp` a check of 64 taps took 1.6 of its time.
fn by_sign(tap: i16, above: i16, below: i16) -> i16
    ensures { result ≡ by_sign tap above below }
{
    if 0 < tap {
        return above;
    }
    if tap < 0 {
        return below;
    }
    0
}

// The sample that drives a tap's term furthest that way.
fn driven(way: Way, tap: i16) -> i16
    ensures { result ≡ driven_of way tap }
{
    match way {
        Way::High => by_sign(tap, i16::MAX, i16::MIN),
        Way::Low => by_sign(tap, i16::MIN, i16::MAX),
    }
}

// Those samples for each tap, in a line of the filter's.
fn drive(way: Way, taps: &Taps<'_>) -> [i16; TAPS]
    ensures { take (length taps.now) result ≡ map (driven_of way) taps.now }
{
    let mut line = [0i16; TAPS];
    // by the tap's place: of what a `zip` over `iter_mut` writes, std's clauses say only how many places there are
    for (i, tap) in taps.raws().iter().enumerate() {
        line[i] = driven(way, *tap);
    }
    line
}

// Past the end of the range that way.
fn passes(way: Way, y: i64) -> bool
    ensures { result ≡ passes way y }
{
    match way {
        Way::High => i64::from(i16::MAX) < y,
        Way::Low => y < i64::from(i16::MIN),
    }
}

// Whether those samples clip that way, by the filter's own sum of them, rounded as the filter rounds;
// then they are the witness.
fn clips(way: Way, taps: &Taps<'_>, witness: &mut [i16]) -> bool
    requires { length witness.old ≡ length taps.now }
    ensures way { result ≡ clips_way way taps.now }
    ensures witness { witness.new ≡ cond (clips_way way taps.now) (driving way taps.now) witness.old }
{
    let line = drive(way, taps);
    let taps = taps.raws();
    let clips = passes(way, sum::level(taps, &line));
    if clips {
        witness.copy_from_slice(&line[..taps.len()]);
    }
    clips
}

// The verdict: which way some samples clip, high before low.
// No taps clip low alone (specs/Theorems.antt, `never-2`); the test stands as 01 defines the verdict.
pub(crate) fn verdict(taps: &Taps<'_>, witness: &mut [i16]) -> Option<Way>
    requires { length witness.old ≡ length taps.now }
    ensures verdict { verdict_number result ≡ verdict_of taps.now }
    ensures witness { witness.new ≡ witness_of taps.now witness.old }
{
    if clips(Way::High, taps, witness) {
        return Some(Way::High);
    }
    if clips(Way::Low, taps, witness) {
        return Some(Way::Low);
    }
    None
}

// 01's number of a verdict.
pub(crate) fn number(verdict: Option<Way>) -> u64
    ensures { result ≡ verdict_number verdict }
{
    match verdict {
        None => 0,
        Some(Way::High) => 1,
        Some(Way::Low) => 2,
    }
}
