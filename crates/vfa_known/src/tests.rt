ghost use Rattle.std.specs.Prelude.{IsTrue};
ghost use Rattle.vfa_word.specs.Numbers.{IsWidth};

use crate::known::Known;
use std::process::Abort;
use std::test::Fail;
use vfa_dom::{Domain, SetOf};
use vfa_word::Word;

/// The known bits of a text of digits from the top, where any other character is an unknown bit.
fn read<const W: u32>(text: &[u8]) -> Result<Known<W>, Fail>
    requires { IsWidth W }
{
    let mut zeros = 0u128;
    let mut ones = 0u128;
    for digit in text {
        zeros <<= 1;
        ones <<= 1;
        match *digit {
            b'0' => zeros |= 1,
            b'1' => ones |= 1,
            _ => {}
        }
    }
    Ok(Known::new(zeros, ones).ok_or("no known bits")?)
}

#[test]
fn sums_of_four_bits(rt: HostRuntime) -> Result<(), Fail> {
    let sum = read::<4>(b"00?1")?.add(&read::<4>(b"0001")?);
    assert_eq!(rt; sum.zeros(), 9);
    assert_eq!(rt; sum.ones(), 0);
    let bit = read::<1>(b"?")?.add(&read::<1>(b"1")?);
    assert_eq!(rt; bit.zeros(), 0);
    assert_eq!(rt; bit.ones(), 0);
    Ok(())
}

#[test]
fn differences_of_four_bits(rt: HostRuntime) -> Result<(), Fail> {
    // 0 or 2, less 1: 15 or 1
    let difference = read::<4>(b"00?0")?.sub(&read::<4>(b"0001")?);
    assert_eq!(rt; difference.zeros(), 0);
    assert_eq!(rt; difference.ones(), 1);
    // 4 or 5, less 1 or 3: 3, 4, 1 or 2
    let fewer = read::<4>(b"010?")?.sub(&read::<4>(b"00?1")?);
    assert_eq!(rt; fewer.zeros(), 8);
    assert_eq!(rt; fewer.ones(), 0);
    Ok(())
}

#[test]
fn next_members_of_four_bits(rt: HostRuntime) -> Result<(), Fail> {
    let even = read::<4>(b"1??0")?;
    assert_eq!(rt; even.first_at_or_after(9), Some(10));
    assert_eq!(rt; even.first_at_or_after(15), None);
    assert_eq!(rt; even.last_at_or_before(13), Some(12));
    assert_eq!(rt; even.last_at_or_before(7), None);
    Ok(())
}

#[test]
fn masks_that_clash_or_pass_the_width(rt: HostRuntime) {
    assert!(rt; Known::<4>::new(1, 1).is_none());
    assert!(rt; Known::<4>::new(16, 0).is_none());
    assert!(rt; Known::<4>::new(0, 16).is_none());
    assert!(rt; Known::<4>::new(8, 7).is_some());
}

#[test]
fn common_numbers(rt: HostRuntime) -> Result<(), Fail> {
    let both = read::<4>(b"1???")?
        .agree(&read::<4>(b"?0??")?)
        .ok_or("none")?;
    assert_eq!(rt; both.zeros(), 4);
    assert_eq!(rt; both.ones(), 8);
    assert!(rt; read::<4>(b"1???")?.agree(&read::<4>(b"0???")?).is_none());
    Ok(())
}

/// Whether a join has what its left side has, known of every domain.
fn joined_has<const W: u32, D: Domain<W>>(one: &D, two: &D, x: Word<W>) -> bool
    requires { D.holds one.now x }
    ensures { IsTrue result }
{
    one.join(two).has(x)
}

/// The calls of a domain, at the sets of all numbers, of `x` alone and of `x` and 0.
fn domain_calls<const W: u32, D: Domain<W>>(rt: &impl Abort, x: Word<W>, zero: Word<W>)
    requires { IsWidth W }
{
    let all = D::any();
    let one = D::only(x);
    let two = one.join(&D::only(zero));
    assert!(rt; all.has(x) && one.has(x) && two.has(zero));
    assert!(rt; !one.has(zero));
    assert!(rt; joined_has(&one, &all, x));
    assert!(rt; two.includes(&one) && !one.includes(&two));
    assert_eq!(rt; one.single().map(|only| only.bits()), Some(x.bits()));
    assert!(rt; two.single().is_none());
}

/// Each call once at one width, at the number 1 and at all numbers.
fn calls<const W: u32>(rt: &impl Abort) -> Result<(), Fail>
    requires { IsWidth W }
{
    let most = u128::MAX >> (128 - W);
    let rest = most ^ 1;
    let one = Word::<W>::cut(1);
    domain_calls::<W, Known<W>>(rt, one, Word::cut(0));

    let bit = Known::<W>::only(one);
    let any = Known::<W>::any();
    assert_eq!(rt; bit.ones(), 1);
    assert_eq!(rt; bit.zeros(), rest);
    assert_eq!(rt; any.zeros() | any.ones(), 0);
    let low = any.and(&bit);
    assert_eq!(rt; (low.zeros(), low.ones()), (rest, 0));
    let odd = any.or(&bit);
    assert_eq!(rt; (odd.zeros(), odd.ones()), (0, 1));
    let flipped = odd.xor(&bit);
    assert_eq!(rt; (flipped.zeros(), flipped.ones()), (1, 0));
    let even = odd.add(&bit);
    assert_eq!(rt; (even.zeros(), even.ones()), (1, 0));
    let last = Known::<W>::only(Word::cut(0)).sub(&bit);
    assert_eq!(rt; (last.zeros(), last.ones()), (0, most));
    assert_eq!(rt; odd.agree(&bit).map(|both| both.ones()), Some(1));
    assert_eq!(rt; odd.first_at_or_after(most), Some(most));
    assert_eq!(rt; even.last_at_or_before(most), Some(rest));
    assert_eq!(rt; bit.first_at_or_after(0), Some(1));
    assert_eq!(rt; bit.last_at_or_before(0), None);
    Ok(())
}

#[test]
fn calls_at_several_widths(rt: HostRuntime) -> Result<(), Fail> {
    calls::<1>(&rt)?;
    calls::<4>(&rt)?;
    calls::<8>(&rt)?;
    calls::<64>(&rt)?;
    calls::<127>(&rt)?;
    calls::<128>(&rt)
}
