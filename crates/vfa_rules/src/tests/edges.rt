//! More rules at their edges, at the widths about those of bytes and words.

use super::*;

/// A binary operation that is kept with these words.
fn kept(width: u32, bin: Bin, nuw: bool, nsw: bool) -> Change {
    Change::Keep(binary(width, bin, nuw, nsw))
}

/// An `or` that is kept, with `disjoint` or without.
fn kept_or(width: u32, disjoint: bool) -> Change {
    Change::Keep(Op::Bin {
        bin: Bin::Or,
        flags: Flags {
            nuw: false,
            nsw: false,
            exact: false,
            disjoint,
        },
        width,
        a: A,
        b: B,
    })
}

/// A conversion that is kept with these words.
fn kept_cast(cast: Cast, from: u32, to: u32, flags: CastFlags) -> Change {
    Change::Keep(Op::Cast {
        cast,
        flags,
        from,
        to,
        a: A,
    })
}

/// An intrinsic of two numbers that is kept.
fn intrinsic(width: u32, fun: Fun2) -> Change {
    Change::Keep(Op::Two {
        fun,
        width,
        a: A,
        b: B,
    })
}

const NO_WORDS: CastFlags = CastFlags {
    nuw: false,
    nsw: false,
    nneg: false,
};

const NOT_NEGATIVE: CastFlags = CastFlags {
    nuw: false,
    nsw: false,
    nneg: true,
};

#[test]
fn bits_that_lie_apart_are_disjoint(rt: HostRuntime) {
    let apart = of_binary(
        Bin::Or,
        &Cell::literal(9, 0b0011),
        &Cell::literal(9, 0b1100),
    );
    expect(&rt, apart, kept_or(9, true));
    let shared = of_binary(
        Bin::Or,
        &Cell::literal(9, 0b0111),
        &Cell::literal(9, 0b1100),
    );
    expect(&rt, shared, kept_or(9, false));
}

#[test]
fn what_is_not_negative_is_extended_with_zeros(rt: HostRuntime) {
    let natural = of_cast(Cast::Sext, 65, &Cell::literal(64, (1 << 63) - 1));
    expect(&rt, natural, kept_cast(Cast::Zext, 64, 65, NOT_NEGATIVE));
    let negative = of_cast(Cast::Sext, 65, &Cell::literal(64, 1 << 63));
    expect(&rt, negative, kept_cast(Cast::Sext, 64, 65, NO_WORDS));
    let zero = of_cast(Cast::Zext, 8, &Cell::literal(1, 0));
    expect(&rt, zero, kept_cast(Cast::Zext, 1, 8, NOT_NEGATIVE));
    let one = of_cast(Cast::Zext, 8, &Cell::literal(1, 1));
    expect(&rt, one, kept_cast(Cast::Zext, 1, 8, NO_WORDS));
}

#[test]
fn what_is_not_negative_is_shifted_and_divided_unsigned(rt: HostRuntime) {
    let two = Cell::literal(17, 2);
    let natural = of_binary(Bin::Ashr, &Cell::literal(17, (1 << 16) - 1), &two);
    expect(&rt, natural, kept(17, Bin::Lshr, false, false));
    let negative = of_binary(Bin::Ashr, &Cell::literal(17, 1 << 16), &two);
    expect(&rt, negative, kept(17, Bin::Ashr, false, false));
    let small = of_binary(Bin::Srem, &two, &Cell::literal(17, 2));
    expect(
        &rt,
        small,
        Change::Narrow(binary(17, Bin::Urem, false, false), 8),
    );
    let below = of_binary(Bin::Srem, &two, &Cell::literal(17, 1 << 16));
    expect(&rt, below, kept(17, Bin::Srem, false, false));
}

#[test]
fn what_a_lesser_width_has_is_truncated_with_words(rt: HostRuntime) {
    let signed = CastFlags {
        nuw: false,
        nsw: true,
        nneg: false,
    };
    let least = of_cast(Cast::Trunc, 8, &Cell::literal(16, 65536 - 128));
    expect(&rt, least, kept_cast(Cast::Trunc, 16, 8, signed));
    let below = of_cast(Cast::Trunc, 8, &Cell::literal(16, 65536 - 129));
    expect(&rt, below, kept_cast(Cast::Trunc, 16, 8, NO_WORDS));
    let more = of_cast(Cast::Trunc, 8, &Cell::literal(16, 256));
    expect(&rt, more, kept_cast(Cast::Trunc, 16, 8, NO_WORDS));
}

#[test]
fn signed_saturation_ends_at_the_edge_of_the_range(rt: HostRuntime) {
    let one = Cell::literal(65, 1);
    let sum = of_two(Fun2::SaddSat, &Cell::literal(65, (1 << 64) - 2), &one);
    expect(&rt, sum, kept(65, Bin::Add, true, true));
    let more = of_two(Fun2::SaddSat, &Cell::literal(65, (1 << 64) - 1), &one);
    expect(&rt, more, intrinsic(65, Fun2::SaddSat));
    let difference = of_two(Fun2::SsubSat, &Cell::literal(65, (1 << 64) + 1), &one);
    expect(&rt, difference, kept(65, Bin::Sub, true, true));
    let less = of_two(Fun2::SsubSat, &Cell::literal(65, 1 << 64), &one);
    expect(&rt, less, intrinsic(65, Fun2::SsubSat));
}

#[test]
fn unsigned_differences_end_at_zero(rt: HostRuntime) {
    let five = Cell::literal(128, 5);
    let none = of_two(Fun2::UsubSat, &five, &five);
    expect(&rt, none, kept(128, Bin::Sub, true, true));
    let below = of_two(Fun2::UsubSat, &Cell::literal(128, 4), &five);
    expect(&rt, below, intrinsic(128, Fun2::UsubSat));
    let wrapped = of_binary(Bin::Sub, &Cell::literal(128, 4), &five);
    expect(&rt, wrapped, kept(128, Bin::Sub, false, true));
}

#[test]
fn the_lesser_and_the_greater_operand_are_kept(rt: HostRuntime) {
    let (least, zero) = (Cell::literal(8, 128), Cell::literal(8, 0));
    expect(&rt, of_two(Fun2::Smin, &least, &zero), Change::Uses(A));
    expect(&rt, of_two(Fun2::Smax, &least, &zero), Change::Uses(B));
    expect(&rt, of_two(Fun2::Umin, &least, &zero), Change::Uses(B));
    expect(&rt, of_two(Fun2::Umax, &least, &zero), Change::Uses(A));
    expect(&rt, of_two(Fun2::Smin, &zero, &zero), Change::Uses(A));
    let all = Cell::any(8, true);
    expect(
        &rt,
        of_two(Fun2::Smin, &all, &zero),
        intrinsic(8, Fun2::Smin),
    );
    expect(
        &rt,
        of_two(Fun2::Umax, &all, &Cell::literal(8, 1)),
        intrinsic(8, Fun2::Umax),
    );
}

#[test]
fn products_and_shifts_gain_words_at_their_edges(rt: HostRuntime) {
    let root = Cell::literal(64, 1 << 32);
    let product = of_binary(Bin::Mul, &root, &Cell::literal(64, (1 << 32) - 1));
    expect(&rt, product, kept(64, Bin::Mul, true, false));
    let more = of_binary(Bin::Mul, &root, &root);
    expect(&rt, more, kept(64, Bin::Mul, false, false));
    let one = Cell::literal(16, 1);
    let top = of_binary(Bin::Shl, &one, &Cell::literal(16, 15));
    expect(&rt, top, kept(16, Bin::Shl, true, false));
    let below = of_binary(Bin::Shl, &one, &Cell::literal(16, 14));
    expect(&rt, below, kept(16, Bin::Shl, true, true));
    let out = of_binary(Bin::Shl, &one, &Cell::literal(16, 16));
    expect(&rt, out, kept(16, Bin::Shl, false, false));
}

#[test]
fn order_of_one_sign_gains_a_word_and_equality_none(rt: HostRuntime) {
    let (zero, one) = (Cell::literal(1, 0), Cell::literal(1, 1));
    let order = |pred: Pred, samesign: bool| {
        Change::Keep(Op::Icmp {
            pred,
            samesign,
            width: 1,
            a: A,
            b: B,
        })
    };
    expect(&rt, of_icmp(Pred::Ult, &one, &one), order(Pred::Ult, true));
    expect(
        &rt,
        of_icmp(Pred::Sgt, &zero, &zero),
        order(Pred::Ugt, true),
    );
    expect(
        &rt,
        of_icmp(Pred::Ult, &zero, &one),
        order(Pred::Ult, false),
    );
    expect(&rt, of_icmp(Pred::Eq, &zero, &zero), order(Pred::Eq, false));
}
