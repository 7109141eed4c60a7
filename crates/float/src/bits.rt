// Powers of two and masks of one word.
ghost use Rattle.std.specs.Prelude.{◌≡◌, ◌-◌, ◌^◌, ◌≤◌};

pub(crate) fn power(k: u32) -> u64
    requires { k ≤ 63 }
    ensures { result ≡ 2 ^ k }
{
    1 << k
}

// The k low bits set.
pub(crate) fn ones(k: u32) -> u64
    requires { k ≤ 63 }
    ensures { result ≡ 2 ^ k - 1 }
{
    power(k) - 1
}
