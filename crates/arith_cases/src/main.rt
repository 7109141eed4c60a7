// The worked examples of src/wrapping.rs's documentation that are in scope, as runs. The file `stdout` beside src/ is
// written from that documentation, not by this program. I16F16 is W 32, F 16: one is 65536 steps.
#![tactic(auto)]

use format::Manner;
use std::io;

fn main(rt: HostRuntime) -> io::Result<()> {
    sums(&rt)?;
    negations(&rt)?;
    products(&rt)?;
    quotients(&rt)?;
    shifts(&rt)?;
    words(&rt)?;
    buffers(&rt)
}

fn sums(rt: &impl Print) -> io::Result<()> {
    shown::answer(
        rt,
        b"MAX + DELTA",
        arith::add(2147483647_i64, 1, 32, 16, Manner::Wrapping),
    )?;
    shown::answer(
        rt,
        b"add_unsigned: -5 + 3",
        arith::add(-327680_i64, 196608, 32, 16, Manner::Wrapping),
    )?;
    shown::answer(
        rt,
        b"add_unsigned: 0 + U16F16::MAX",
        arith::add(0_i64, 4294967295, 32, 16, Manner::Wrapping),
    )?;
    shown::answer(
        rt,
        b"sub_unsigned: 3 - 5",
        arith::sub(196608_i64, 327680, 32, 16, Manner::Wrapping),
    )?;
    shown::answer(
        rt,
        b"sub_unsigned: 0 - U16F16::MAX",
        arith::sub(0_i64, 4294967295, 32, 16, Manner::Wrapping),
    )?;
    shown::answer(
        rt,
        b"add_signed: 5 + -3",
        arith::sub(327680_u64, 196608, 32, 16, Manner::Wrapping),
    )?;
    shown::answer(
        rt,
        b"add_signed: 0 + -DELTA",
        arith::sub(0_u64, 1, 32, 16, Manner::Wrapping),
    )?;
    shown::answer(
        rt,
        b"sub_signed: 5 - -3",
        arith::add(327680_u64, 196608, 32, 16, Manner::Wrapping),
    )?;
    shown::answer(
        rt,
        b"sub_signed: 0 - DELTA",
        arith::sub(0_u64, 1, 32, 16, Manner::Wrapping),
    )
}

fn negations(rt: &impl Print) -> io::Result<()> {
    shown::answer(
        rt,
        b"abs: -(-5)",
        arith::neg(-327680_i64, 32, 16, Manner::Wrapping),
    )?;
    shown::answer(
        rt,
        b"abs: -MIN",
        arith::neg(-2147483648_i64, 32, 16, Manner::Wrapping),
    )
}

fn products(rt: &impl Print) -> io::Result<()> {
    shown::answer(
        rt,
        b"mul_add: 3 * 0.5",
        arith::mul(196608_i64, 32768, 32, 16, Manner::Wrapping),
    )?;
    shown::answer(
        rt,
        b"mul_add: MAX * 4",
        arith::mul(2147483647_i64, 262144, 32, 16, Manner::Wrapping),
    )?;
    shown::answer(
        rt,
        b"mul_acc: 4 * 0.5",
        arith::mul(262144_i64, 32768, 32, 16, Manner::Wrapping),
    )?;
    shown::answer(
        rt,
        b"mul_acc: 3 + 2",
        arith::add(196608_i64, 131072, 32, 16, Manner::Wrapping),
    )
}

fn quotients(rt: &impl Print) -> io::Result<()> {
    shown::answer(
        rt,
        b"ceil: 5 / 2",
        arith::div(327680_i64, 131072, 32, 16, Manner::Wrapping),
    )?;
    shown::answer(
        rt,
        b"rem_euclid: 7.5 % 2",
        arith::rem(491520_i64, 131072, 32, 16, Manner::Wrapping),
    )?;
    shown::answer(
        rt,
        b"div_euclid_int: MIN / -1",
        arith::div(-2147483648_i64, -65536, 32, 16, Manner::Wrapping),
    )?;
    shown::answer(
        rt,
        b"recip, I8F24: 1 / 512",
        arith::div(16777216_i64, 8589934592, 32, 24, Manner::Wrapping),
    )?;
    shown::answer(
        rt,
        b"recip, I8F24: 1 / 0.25",
        arith::div(16777216_i64, 4194304, 32, 24, Manner::Wrapping),
    )?;
    shown::answer(
        rt,
        b"recip, I8F24: 1 / (1 / 512)",
        arith::div(16777216_i64, 32768, 32, 24, Manner::Wrapping),
    )?;
    shown::answer(
        rt,
        b"recip panics if zero",
        arith::div(16777216_i64, 0, 32, 24, Manner::Wrapping),
    )
}

fn shifts(rt: &impl Print) -> io::Result<()> {
    shown::answer(
        rt,
        b"unbounded_shl: 1.5 << 5",
        shift::shl(98304_i64, 5, 32, 16, Manner::Wrapping),
    )?;
    shown::answer(
        rt,
        b"unbounded_shr: 1.5 >> 5",
        shift::shr(98304_i64, 5, 32, 16, Manner::Wrapping),
    )?;
    shown::answer(
        rt,
        b"unbounded_shr: -1.5 >> 5",
        shift::shr(-98304_i64, 5, 32, 16, Manner::Wrapping),
    )
}

fn words(rt: &impl Print) -> io::Result<()> {
    shown::answer(
        rt,
        b"swap_bytes: 0x12345678",
        byte_order::swap_bytes(0x1234_5678_i64, 32, 16),
    )?;
    shown::answer(
        rt,
        b"swap_bytes, unsigned: 0x12345678",
        byte_order::swap_bytes(0x1234_5678_u64, 32, 16),
    )?;
    shown::answer(
        rt,
        b"from_be_bytes: 12 34 56 78",
        byte_order::from_be_bytes::<i64>(b"\x12\x34\x56\x78", 32, 16),
    )?;
    shown::answer(
        rt,
        b"from_le_bytes: 78 56 34 12",
        byte_order::from_le_bytes::<i64>(b"\x78\x56\x34\x12", 32, 16),
    )
}

fn buffers(rt: &impl Print) -> io::Result<()> {
    let mut big = [0u8; 5];
    let a = byte_order::to_be_bytes(0x1234_5678_i64, 32, 16, &mut big);
    shown::bytes(rt, b"to_be_bytes: 0x12345678, five places", &big, a)?;
    let mut little = [0u8; 4];
    let b = byte_order::to_le_bytes(0x1234_5678_i64, 32, 16, &mut little);
    shown::bytes(rt, b"to_le_bytes: 0x12345678, four places", &little, b)?;
    let mut short = [7u8; 3];
    let c = byte_order::to_le_bytes(0x1234_5678_u64, 32, 16, &mut short);
    shown::bytes(rt, b"to_le_bytes: 0x12345678, three places", &short, c)
}
