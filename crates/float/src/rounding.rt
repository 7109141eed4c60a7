// A word times 2^up over 2^down, to the nearest whole number, ties to even.
ghost use Rattle.std.specs.Prelude.{◌≡◌, ◌*◌, ◌^◌, ◌<◌};
ghost use Rattle.laws.specs.Nearest.{nearest_even, nearest_by};
ghost use Rattle.float.specs.Folds.{Folds};

use crate::bits;
use std::cmp::Ordering;
use wide::Wide;

// Past two words no format needs more than that there is something: whole 2^64 are dropped.
pub(crate) fn scaled(m: u64, up: u32, down: u32) -> Wide
    requires { m < 2 ^ 63 }
    ensures { Folds (nearest_even (m * 2 ^ up) (2 ^ down)) result }
{
    if up < down {
        let k = down - up;
        // less than half is left from 2^64 on
        let low = if k < 64 { nearest(m, k) } else { 0 };
        return low.into();
    }
    let k = up - down;
    if k < 64 {
        return wide::shl(m.into(), k);
    }
    Wide { high: m, low: 0 }
}

// m / 2^k, by what is left of m: less than half of 2^k, more, or half.
#[tactic(auto, using(format::specs::Place::masked), unfolding(laws::specs::Nearest::nearest_even))]
pub fn nearest(m: u64, k: u32) -> u64
    requires { (0 < k) × (k < 64) }
    ensures { result ≡ nearest_even m (2 ^ k) }
{
    by_rest(m >> k, m & bits::ones(k), bits::power(k))
}

#[tactic(auto, unfolding(laws::specs::Nearest::nearest_by))]
pub fn by_rest(whole: u64, rest: u64, unit: u64) -> u64
    requires { (whole < 2 ^ 63) × (rest < 2 ^ 63) }
    ensures { result ≡ nearest_by whole rest unit }
{
    match (rest * 2).cmp(&unit) {
        Ordering::Less => whole,
        Ordering::Greater => whole + 1,
        Ordering::Equal => whole + whole % 2,
    }
}
