use super::*;

const LEAST: u128 = 1 << 127;

#[test]
fn new_holds_numbers_of_the_width_alone(rt: HostRuntime) {
    assert!(rt; Word::<1>::new(2).is_none());
    assert!(rt; Word::<4>::new(15).is_some());
    assert!(rt; Word::<4>::new(16).is_none());
    assert!(rt; Word::<127>::new(LEAST).is_none());
    assert!(rt; Word::<128>::new(u128::MAX).is_some());
}

#[test]
fn cut_keeps_the_low_bits(rt: HostRuntime) {
    assert_eq!(rt; Word::<1>::cut(3).bits(), 1);
    assert_eq!(rt; Word::<4>::cut(0x1f).bits(), 15);
    assert_eq!(rt; Word::<64>::cut(u128::MAX).bits(), 0xffff_ffff_ffff_ffff);
    assert_eq!(rt; Word::<128>::cut(u128::MAX).bits(), u128::MAX);
    assert_eq!(rt; Word::<8>::wrapped(-1).bits(), 255);
    assert_eq!(rt; most::<127>(), LEAST - 1);
}

#[test]
fn signed_reads_the_sign_bit(rt: HostRuntime) {
    assert_eq!(rt; Word::<1>::cut(1).signed(), -1);
    assert_eq!(rt; Word::<4>::cut(8).signed(), -8);
    assert_eq!(rt; Word::<4>::cut(7).signed(), 7);
    assert_eq!(rt; Word::<127>::cut(u128::MAX).signed(), -1);
    assert_eq!(rt; Word::<128>::cut(LEAST).signed(), i128::MIN);
}

#[test]
fn sums_wrap(rt: HostRuntime) {
    assert_eq!(rt; Word::<8>::cut(200).add(Word::cut(100)).bits(), 44);
    assert_eq!(rt; Word::<1>::cut(1).add(Word::cut(1)).bits(), 0);
    assert_eq!(rt; Word::<128>::cut(u128::MAX).add(Word::cut(2)).bits(), 1);
    assert_eq!(rt; Word::<8>::cut(5).sub(Word::cut(10)).bits(), 251);
    assert_eq!(rt; Word::<128>::cut(0).sub(Word::cut(1)).bits(), u128::MAX);
    assert_eq!(rt; Word::<8>::cut(16).mul(Word::cut(17)).bits(), 16);
    assert_eq!(rt; Word::<64>::cut(1 << 63).mul(Word::cut(2)).bits(), 0);
}

#[test]
fn bitwise_calls(rt: HostRuntime) {
    assert_eq!(rt; Word::<4>::cut(12).and(Word::cut(10)).bits(), 8);
    assert_eq!(rt; Word::<4>::cut(12).or(Word::cut(10)).bits(), 14);
    assert_eq!(rt; Word::<4>::cut(12).xor(Word::cut(10)).bits(), 6);
}

#[test]
fn shifts(rt: HostRuntime) {
    assert_eq!(rt; Word::<8>::cut(0x81).shl(1).bits(), 2);
    assert_eq!(rt; Word::<8>::cut(0x81).lshr(1).bits(), 0x40);
    assert_eq!(rt; Word::<8>::cut(0x81).ashr(1).bits(), 0xc0);
    assert_eq!(rt; Word::<1>::cut(1).ashr(0).bits(), 1);
    assert_eq!(rt; Word::<128>::cut(LEAST).ashr(127).bits(), u128::MAX);
    assert_eq!(rt; Word::<128>::cut(LEAST).lshr(127).bits(), 1);
}

#[test]
fn divisions(rt: HostRuntime) {
    assert_eq!(rt; Word::<8>::cut(200).udiv(Word::cut(7)).bits(), 28);
    assert_eq!(rt; Word::<8>::cut(200).urem(Word::cut(7)).bits(), 4);
    assert_eq!(rt; Word::<8>::cut(249).sdiv(Word::cut(2)).bits(), 253);
    assert_eq!(rt; Word::<8>::cut(249).srem(Word::cut(2)).bits(), 255);
    assert_eq!(rt; Word::<128>::cut(LEAST).sdiv(Word::cut(1)).bits(), LEAST);
    assert_eq!(rt;
        Word::<128>::cut(LEAST).srem(Word::cut(3)).bits(),
        u128::MAX - 1
    );
}

#[test]
fn unsigned_overflow(rt: HostRuntime) {
    assert!(rt; Word::<8>::cut(255).overflows_u(Arith::Add, Word::cut(1)));
    assert!(rt; !Word::<8>::cut(254).overflows_u(Arith::Add, Word::cut(1)));
    assert!(rt; Word::<128>::cut(u128::MAX).overflows_u(Arith::Add, Word::cut(1)));
    assert!(rt; Word::<4>::cut(2).overflows_u(Arith::Sub, Word::cut(3)));
    assert!(rt; Word::<4>::cut(4).overflows_u(Arith::Mul, Word::cut(4)));
    assert!(rt; !Word::<4>::cut(3).overflows_u(Arith::Shl, Word::cut(2)));
    assert!(rt; Word::<4>::cut(4).overflows_u(Arith::Shl, Word::cut(2)));
}

#[test]
fn signed_overflow(rt: HostRuntime) {
    assert!(rt; Word::<8>::cut(127).overflows_s(Arith::Add, Word::cut(1)));
    assert!(rt; !Word::<8>::cut(126).overflows_s(Arith::Add, Word::cut(1)));
    assert!(rt; Word::<1>::cut(1).overflows_s(Arith::Add, Word::cut(1)));
    assert!(rt; Word::<8>::cut(128).overflows_s(Arith::Sub, Word::cut(1)));
    assert!(rt; !Word::<8>::cut(255).overflows_s(Arith::Sub, Word::cut(127)));
    assert!(rt; Word::<127>::cut(LEAST >> 1).overflows_s(Arith::Mul, Word::cut(u128::MAX)));
    assert!(rt; Word::<128>::cut(LEAST).overflows_s(Arith::Mul, Word::cut(u128::MAX)));
    assert!(rt; !Word::<4>::cut(14).overflows_s(Arith::Shl, Word::cut(2)));
    assert!(rt; Word::<4>::cut(13).overflows_s(Arith::Shl, Word::cut(2)));
    assert!(rt; Word::<4>::cut(2).overflows_s(Arith::Shl, Word::cut(2)));
}
