// Answers and manners as C has them: numbers in place of enums. The two structs stand apart, since an export may
// return none with a type parameter.
ghost use Rattle.std.specs.Prelude.{◌≡◌};
ghost use Rattle.capi.specs.Meaning.{signed_of, unsigned_of, manner_of};

use format::{Answered, Manner};

// tq_signed
#[repr(C)]
#[derive(Clone, Copy)]
pub struct CSigned {
    pub number: u32,
    pub flag: u32,
    pub value: i64,
}

// tq_unsigned
#[repr(C)]
#[derive(Clone, Copy)]
pub struct CUnsigned {
    pub number: u32,
    pub flag: u32,
    pub value: u64,
}

impl From<Answered<i64>> for CSigned {
    ghost from_gives = { λ a r. r ≡ signed_of a };

    fn from(a: Answered<i64>) -> CSigned {
        match a {
            Ok(answer) => CSigned {
                number: 0,
                flag: u32::from(answer.flag),
                value: answer.raw,
            },
            Err(refusal) => CSigned {
                number: refusal.number(),
                flag: 0,
                value: 0,
            },
        }
    }
}

// C has a struct for each sign, so there is a conversion for each.
impl From<Answered<u64>> for CUnsigned {
    ghost from_gives = { λ a r. r ≡ unsigned_of a };

    fn from(a: Answered<u64>) -> CUnsigned {
        match a {
            Ok(answer) => CUnsigned {
                number: 0,
                flag: u32::from(answer.flag),
                value: answer.raw,
            },
            Err(refusal) => CUnsigned {
                number: refusal.number(),
                flag: 0,
                value: 0,
            },
        }
    }
}

// Any other number than 1, 2 and 3 is strict.
pub(crate) fn manner(n: u32) -> Manner
    ensures { result ≡ manner_of n }
{
    match n {
        1 => Manner::Saturating,
        2 => Manner::Wrapping,
        3 => Manner::Overflowing,
        _ => Manner::Strict,
    }
}
