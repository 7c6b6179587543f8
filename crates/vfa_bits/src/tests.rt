use super::*;
use std::alloc::Global;
use vfa_check::{Checked, accepted_may_be_checked, check};
use vfa_demand::masks;
use vfa_ir::{Bin, Cast, CastFlags, Flags, Op, Operand, Outside, ValueId};
use vfa_lex::tokens;
use vfa_print::print_function;
use vfa_read::read_function;

const PLAIN: Flags = Flags {
    nuw: false,
    nsw: false,
    exact: false,
    disjoint: false,
};

const NO_FLAGS: CastFlags = CastFlags {
    nuw: false,
    nsw: false,
    nneg: false,
};

fn name(number: u32) -> Operand {
    Operand::Value(ValueId(number))
}

fn beside(bin: Bin, a: Operand, b: Operand) -> Op {
    Op::Bin {
        bin,
        flags: PLAIN,
        width: 8,
        a,
        b,
    }
}

#[test]
fn literals_that_change_no_asked_bit_are_passed_over(rt: HostRuntime) {
    let and = beside(Bin::And, name(0), Operand::Literal(15));
    assert!(rt; same_bits_operand(&and, 7) == Some(name(0)));
    assert!(rt; same_bits_operand(&and, 16).is_none());
    let or = beside(Bin::Or, Operand::Literal(240), name(0));
    assert!(rt; same_bits_operand(&or, 15) == Some(name(0)));
    assert!(rt; same_bits_operand(&or, 31).is_none());
}

#[test]
fn chains_are_followed_to_their_end(rt: HostRuntime) {
    let masks = [255, 255, 255, 0];
    let replacements = [None, Some(name(0)), Some(name(1)), None];
    assert!(rt; standing(&masks, &replacements, name(2)) == name(0));
    assert!(rt; standing(&masks, &replacements, name(3)) == Operand::Literal(0));
}

#[test]
fn sign_extensions_whose_sign_is_not_asked_for_take_zeros(rt: HostRuntime) {
    let op = Op::Cast {
        cast: Cast::Sext,
        flags: NO_FLAGS,
        from: 8,
        to: 128,
        a: name(0),
    };
    assert!(rt; narrowed_cast(&op, 256) == op);
    assert!(rt; narrowed_cast(&op, 255) != op);
}

/// The function that a text of at most a hundred thousand bytes is.
fn read(alloc: Global, text: &[u8]) -> Result<Checked, Outside> {
    accepted_may_be_checked();
    if text.len() > 100000 {
        return Err(Outside::Memory);
    }
    let tokens = tokens(alloc, text)?;
    let read = read_function(alloc, text, tokens.as_slice())?;
    check(alloc, read.function, &read.lines)
}

/// The function of a text, narrowed by its least masks, as a text.
fn narrowed(alloc: Global, text: &[u8]) -> Result<Vec<u8>, Outside> {
    let f = read(alloc, text)?;
    let masks = masks(alloc, &f)?;
    let narrowed = narrow_by_masks(alloc, &f, masks.as_slice())?;
    Ok(print_function(alloc, narrowed.function())?)
}

#[test]
fn bits_that_are_not_returned_are_not_kept_clear(rt: HostRuntime) {
    let text =
        b"define i8 @low(i32 %x, i32 %y) {\n  %a = and i32 %x, 65535\n  %s = add nsw i32 %a, %y\n  %t = trunc i32 %s to i8\n  ret i8 %t\n}";
    let narrow = narrowed(rt.alloc(), text).expect(&rt, "narrowed");
    assert!(rt;
        narrow.as_slice()
            == b"define i8 @low(i32 %x, i32 %y) {\n  %s = add i32 %x, %y\n  %t = trunc i32 %s to i8\n  ret i8 %t\n}".as_slice()
    );
}

#[test]
fn chains_of_literals_are_passed_over_as_one(rt: HostRuntime) {
    let text =
        b"define i8 @f(i32 %x) {\n  %a = and i32 %x, 65535\n  %b = or i32 %a, 256\n  %c = xor i32 1024, %b\n  %t = trunc i32 %c to i8\n  ret i8 %t\n}";
    let narrow = narrowed(rt.alloc(), text).expect(&rt, "narrowed");
    assert!(rt;
        narrow.as_slice()
            == b"define i8 @f(i32 %x) {\n  %t = trunc i32 %x to i8\n  ret i8 %t\n}".as_slice()
    );
}

#[test]
fn a_sign_that_nobody_sees_takes_zeros_and_flags_go(rt: HostRuntime) {
    let text =
        b"define i8 @f(i8 %x) {\n  %s = sext i8 %x to i32\n  %a = add nuw nsw i32 %s, 1\n  %t = trunc i32 %a to i8\n  ret i8 %t\n}";
    let narrow = narrowed(rt.alloc(), text).expect(&rt, "narrowed");
    assert!(rt;
        narrow.as_slice()
            == b"define i8 @f(i8 %x) {\n  %s = zext i8 %x to i32\n  %a = add i32 %s, 1\n  %t = trunc i32 %a to i8\n  ret i8 %t\n}".as_slice()
    );
}

#[test]
fn a_sign_that_is_seen_stays(rt: HostRuntime) {
    let text =
        b"define i8 @f(i8 %x) {\n  %s = sext i8 %x to i32\n  %a = lshr exact i32 %s, 1\n  %t = trunc i32 %a to i8\n  ret i8 %t\n}";
    let narrow = narrowed(rt.alloc(), text).expect(&rt, "narrowed");
    assert!(rt;
        narrow.as_slice()
            == b"define i8 @f(i8 %x) {\n  %s = sext i8 %x to i32\n  %a = lshr exact i32 %s, 1\n  %t = trunc i32 %a to i8\n  ret i8 %t\n}".as_slice()
    );
}

#[test]
fn divisions_stay_and_names_of_which_nothing_is_asked_become_0(rt: HostRuntime) {
    let text =
        b"define i8 @f(i32 %x, i32 %y) {\n  %q = udiv exact i32 %x, %y\n  %u = add i32 %q, 1\n  %s = shl nuw i32 %u, 8\n  %o = or disjoint i32 %s, 7\n  %t = trunc i32 %o to i8\n  ret i8 %t\n}";
    let narrow = narrowed(rt.alloc(), text).expect(&rt, "narrowed");
    assert!(rt;
        narrow.as_slice()
            == b"define i8 @f(i32 %x, i32 %y) {\n  %q = udiv exact i32 %x, %y\n  %s = shl i32 0, 8\n  %o = or i32 %s, 7\n  %t = trunc i32 %o to i8\n  ret i8 %t\n}".as_slice()
    );
}

#[test]
fn operands_of_phis_are_replaced_at_the_end_of_their_predecessors(rt: HostRuntime) {
    let text =
        b"define i8 @f(i32 %x, i1 %c) {\nentry:\n  br i1 %c, label %l, label %r\n\nl:\n  %a = and i32 %x, 255\n  br label %m\n\nr:\n  %b = or i32 %x, 65536\n  br label %m\n\nm:\n  %p = phi i32 [ %a, %l ], [ %b, %r ]\n  %n = add nuw i32 %p, 1\n  %t = trunc i32 %n to i8\n  ret i8 %t\n}";
    let narrow = narrowed(rt.alloc(), text).expect(&rt, "narrowed");
    assert!(rt;
        narrow.as_slice()
            == b"define i8 @f(i32 %x, i1 %c) {\nentry:\n  br i1 %c, label %l, label %r\n\nl:\n  br label %m\n\nr:\n  br label %m\n\nm:\n  %p = phi i32 [ %x, %l ], [ %x, %r ]\n  %n = add i32 %p, 1\n  %t = trunc i32 %n to i8\n  ret i8 %t\n}".as_slice()
    );
}

#[test]
fn names_stay_at_uses_that_no_walk_comes_to(rt: HostRuntime) {
    let text =
        b"define i8 @f(i32 %x) {\nentry:\n  ret i8 0\n\ndead:\n  %a = and i32 %b, 255\n  %b = or i32 %a, 256\n  %t = trunc i32 %b to i8\n  ret i8 %t\n}";
    let narrow = narrowed(rt.alloc(), text).expect(&rt, "narrowed");
    assert!(rt;
        narrow.as_slice()
            == b"define i8 @f(i32 %x) {\nentry:\n  ret i8 0\n\ndead:\n  %a = and i32 %b, 255\n  %b = or i32 %a, 256\n  %t = trunc i32 %b to i8\n  ret i8 %t\n}".as_slice()
    );
}

#[test]
fn arguments_of_calls_are_asked_for_as_a_whole(rt: HostRuntime) {
    let text =
        b"define i8 @f(i32 %x) {\n  %a = and i32 %x, 255\n  %z = and i32 %a, 0\n  call void @g(i32 %a)\n  %t = trunc i32 %a to i8\n  ret i8 %t\n}";
    let narrow = narrowed(rt.alloc(), text).expect(&rt, "narrowed");
    assert!(rt;
        narrow.as_slice()
            == b"define i8 @f(i32 %x) {\n  %a = and i32 %x, 255\n  call void @g(i32 %a)\n  %t = trunc i32 %a to i8\n  ret i8 %t\n}".as_slice()
    );
}

#[test]
fn arguments_of_calls_take_what_stands_for_them(rt: HostRuntime) {
    let text =
        b"define i8 @f(i8 %x) {\n  %a = and i8 %x, 255\n  %r = call i8 @g(i8 noundef %a)\n  ret i8 %r\n}";
    let narrow = narrowed(rt.alloc(), text).expect(&rt, "narrowed");
    assert!(rt;
        narrow.as_slice()
            == b"define i8 @f(i8 %x) {\n  %r = call i8 @g(i8 noundef %x)\n  ret i8 %r\n}".as_slice()
    );
}

#[test]
fn loops_keep_what_they_carry_round(rt: HostRuntime) {
    let text =
        b"define i8 @f(i32 %x) {\nentry:\n  br label %head\n\nhead:\n  %i = phi i32 [ 0, %entry ], [ %n, %head ]\n  %m = and i32 %i, 4095\n  %n = add nuw nsw i32 %m, %x\n  %t = trunc i32 %n to i8\n  %c = icmp eq i8 %t, 0\n  br i1 %c, label %end, label %head\n\nend:\n  ret i8 %t\n}";
    let narrow = narrowed(rt.alloc(), text).expect(&rt, "narrowed");
    assert!(rt;
        narrow.as_slice()
            == b"define i8 @f(i32 %x) {\nentry:\n  br label %head\n\nhead:\n  %i = phi i32 [ 0, %entry ], [ %n, %head ]\n  %n = add i32 %i, %x\n  %t = trunc i32 %n to i8\n  %c = icmp eq i8 %t, 0\n  br i1 %c, label %end, label %head\n\nend:\n  ret i8 %t\n}".as_slice()
    );
}

#[test]
fn switches_see_all_bits(rt: HostRuntime) {
    let text =
        b"define i8 @f(i8 %x) {\nentry:\n  %m = and i8 %x, 3\n  switch i8 %m, label %b [\n    i8 0, label %a\n    i8 1, label %b\n  ]\n\na:\n  ret i8 1\n\nb:\n  %o = or i8 %m, 0\n  ret i8 %o\n}";
    let narrow = narrowed(rt.alloc(), text).expect(&rt, "narrowed");
    assert!(rt;
        narrow.as_slice()
            == b"define i8 @f(i8 %x) {\nentry:\n  %m = and i8 %x, 3\n  switch i8 %m, label %b [\n    i8 0, label %a\n    i8 1, label %b\n  ]\n\na:\n  ret i8 1\n\nb:\n  ret i8 %m\n}".as_slice()
    );
}
