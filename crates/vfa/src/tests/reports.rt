//! The reports of `facts`.
use super::*;

/// Runs `facts` over the input, which writes these reports and has no note.
fn check_reports<R: AllocGlobal + Abort + Threads + Sync>(
    rt: &R,
    input: &[u8],
    out: &[u8],
) -> Result<(), Fail> {
    let status = Status::Done;
    check_run(
        rt,
        "facts",
        roomy(rt, input, 1 << 16)?,
        End {
            status,
            out,
            err: b"",
        },
    )
}

// An addition of one: its operand is 1 or 3, so its result is 2 or 4.
#[test]
fn shows_the_bits_that_a_sum_may_carry_into(rt: HostRuntime) -> Result<(), Fail> {
    let input = b"define i4 @carry(i4 %x) {
entry:
  %a = and i4 %x, 2
  %b = or i4 %a, 1
  %r = add i4 %b, 1
  ret i4 %r
}
";
    let out = b"function @carry
  param %x i4 ???? full maybe-poison
  block %entry
    in %x i4 ???? full maybe-poison
    def %a i4 00?0 [0,3) maybe-poison
    def %b i4 00?1 [1,4) maybe-poison
    def %r i4 0??0 [2,5) maybe-poison
";
    check_reports(&rt, input, out)
}

// Two phis that exchange their values on each turn of a loop.
#[test]
fn reads_the_phis_of_a_block_at_once(rt: HostRuntime) -> Result<(), Fail> {
    let input = b"define i8 @swap(i1 noundef %c) {
entry:
  br label %loop

loop:
  %a = phi i8 [ 1, %entry ], [ %b, %loop ]
  %b = phi i8 [ 2, %entry ], [ %a, %loop ]
  br i1 %c, label %loop, label %exit

exit:
  ret i8 %a
}
";
    let out = b"function @swap
  param %c i1 ? full never-poison
  block %entry
  block %loop
    in %c i1 ? full never-poison
    def %a i8 000000?? [1,3) never-poison
    def %b i8 000000?? [1,3) never-poison
  block %exit
    in %a i8 000000?? [1,3) never-poison
";
    check_reports(&rt, input, out)
}

// Constants at widths 1 and 8; the block has no name.
#[test]
fn shows_constants_and_bits(rt: HostRuntime) -> Result<(), Fail> {
    let input = b"define i8 @one() {
  %a = sext i1 true to i8
  %b = add i1 true, true
  %c = select i1 %b, i8 7, i8 %a
  ret i8 %c
}
";
    let out = b"function @one
  block %0
    def %a i8 11111111 [255,0) never-poison
    def %b i1 0 [0,1) never-poison
    def %c i8 11111111 [255,0) never-poison
";
    check_reports(&rt, input, out)
}

#[test]
fn takes_frozen_values_as_never_poison(rt: HostRuntime) -> Result<(), Fail> {
    let input = b"define i8 @fr(i8 noundef %x, i8 %y) {
  %a = freeze i8 %x
  %b = freeze i8 %y
  %c = xor i8 %a, %b
  ret i8 %c
}
";
    let out = b"function @fr
  param %x i8 ???????? full never-poison
  param %y i8 ???????? full maybe-poison
  block %0
    in %x i8 ???????? full never-poison
    in %y i8 ???????? full maybe-poison
    def %a i8 ???????? full never-poison
    def %b i8 ???????? full never-poison
    def %c i8 ???????? full never-poison
";
    check_reports(&rt, input, out)
}

#[test]
fn goes_on_past_no_instruction_that_is_always_undefined(rt: HostRuntime) -> Result<(), Fail> {
    let input = b"define i8 @dead(i8 %x) {
entry:
  call void @llvm.assume(i1 false)
  br label %next

next:
  ret i8 %x
}
";
    let out = b"function @dead
  param %x i8 ???????? full maybe-poison
  block %entry
    never-past-here
  block %next never-reached
";
    check_reports(&rt, input, out)
}

#[test]
fn goes_on_past_no_division_by_zero(rt: HostRuntime) -> Result<(), Fail> {
    let input = b"define i8 @never(i8 noundef %x) {
entry:
  %c = icmp ult i8 %x, 3
  br i1 %c, label %small, label %other

small:
  %d = udiv i8 %x, 0
  %e = add i8 %d, 1
  ret i8 %e

other:
  ret i8 %x
}
";
    let out = b"function @never
  param %x i8 ???????? full never-poison
  block %entry
    in %x i8 ???????? full never-poison
    def %c i1 ? full never-poison
  block %small
    in %x i8 000000?? [0,3) never-poison
    never-past-here
  block %other
    in %x i8 ???????? [3,0) never-poison
";
    check_reports(&rt, input, out)
}

#[test]
fn knows_nothing_of_the_result_of_a_call(rt: HostRuntime) -> Result<(), Fail> {
    let input = b"define i8 @h(i8 %x) {
  %a = and i8 %x, 15
  %b = and i8 %a, -16
  %r = call i8 @g(i8 %b)
  %z = call i8 @g(i8 %r)
  ret i8 %b
}
";
    let out = b"function @h
  param %x i8 ???????? full maybe-poison
  block %0
    in %x i8 ???????? full maybe-poison
    def %a i8 0000???? [0,16) maybe-poison
    def %b i8 00000000 [0,1) maybe-poison
    def %r i8 ???????? full maybe-poison
    def %z i8 ???????? full maybe-poison
";
    check_reports(&rt, input, out)
}

#[test]
fn takes_a_call_with_noundef_as_never_poison(rt: HostRuntime) -> Result<(), Fail> {
    let input = b"define i8 @nu(i8 %x) {
  %r = call noundef i8 @g(i8 noundef %x)
  ret i8 %r
}
";
    let out = b"function @nu
  param %x i8 ???????? full maybe-poison
  block %0
    in %x i8 ???????? full maybe-poison
    def %r i8 ???????? full never-poison
";
    check_reports(&rt, input, out)
}

#[test]
fn shows_both_parts_of_a_pair(rt: HostRuntime) -> Result<(), Fail> {
    let input = b"define i8 @pair(i8 noundef %x) {
  %a = and i8 %x, 15
  %p = call { i8, i1 } @llvm.uadd.with.overflow.i8(i8 %a, i8 1)
  %s = extractvalue { i8, i1 } %p, 0
  ret i8 %s
}
";
    let out = b"function @pair
  param %x i8 ???????? full never-poison
  block %0
    in %x i8 ???????? full never-poison
    def %a i8 0000???? [0,16) never-poison
    def %p[0] i8 000????? [1,17) never-poison
    def %p[1] i1 0 [0,1) never-poison
    def %s i8 000????? [1,17) never-poison
";
    check_reports(&rt, input, out)
}

#[test]
fn shows_that_a_value_is_poison_alone(rt: HostRuntime) -> Result<(), Fail> {
    let input = b"define i8 @poison(i8 %x) {
  %r = shl i8 %x, 8
  ret i8 %r
}
";
    let out = b"function @poison
  param %x i8 ???????? full maybe-poison
  block %0
    in %x i8 ???????? full maybe-poison
    def %r i8 only-poison
";
    check_reports(&rt, input, out)
}

// A number from -3 to 4.
#[test]
fn shows_a_range_that_wraps(rt: HostRuntime) -> Result<(), Fail> {
    let input = b"define i8 @wrapped(i8 noundef %x) {
  %a = and i8 %x, 7
  %b = add i8 %a, -3
  ret i8 %b
}
";
    let out = b"function @wrapped
  param %x i8 ???????? full never-poison
  block %0
    in %x i8 ???????? full never-poison
    def %a i8 00000??? [0,8) never-poison
    def %b i8 ???????? [253,5) never-poison
";
    check_reports(&rt, input, out)
}

#[test]
fn shows_the_widest_numbers(rt: HostRuntime) -> Result<(), Fail> {
    let input = b"define i128 @wide(i128 noundef %x) {
  %a = lshr i128 %x, 120
  %b = trunc i128 %x to i1
  %c = zext i1 %b to i128
  %d = or i128 %a, %c
  ret i128 %d
}
";
    let out = b"function @wide
  param %x i128 ???????????????????????????????????????????????????????????????????????????????????????????????????????????????????????????????? full never-poison
  block %0
    in %x i128 ???????????????????????????????????????????????????????????????????????????????????????????????????????????????????????????????? full never-poison
    def %a i128 000000000000000000000000000000000000000000000000000000000000000000000000000000000000000000000000000000000000000000000000???????? [0,256) never-poison
    def %b i1 ? full never-poison
    def %c i128 0000000000000000000000000000000000000000000000000000000000000000000000000000000000000000000000000000000000000000000000000000000? [0,2) never-poison
    def %d i128 000000000000000000000000000000000000000000000000000000000000000000000000000000000000000000000000000000000000000000000000???????? [0,256) never-poison
";
    check_reports(&rt, input, out)
}

#[test]
fn shows_names_in_quotes_where_they_need_them(rt: HostRuntime) -> Result<(), Fail> {
    let input = b"define i8 @\"two words\"(i8 noundef %\"a b\") {
\"the entry\":
  %\"\\22\" = and i8 %\"a b\", 1
  br label %\"a-b\"

\"a-b\":
  ret i8 %\"\\22\"
}
";
    let out = b"function @\"two words\"
  param %\"a b\" i8 ???????? full never-poison
  block %\"the entry\"
    in %\"a b\" i8 ???????? full never-poison
    def %\"\\22\" i8 0000000? [0,2) never-poison
  block %a-b
    in %\"\\22\" i8 0000000? [0,2) never-poison
";
    check_reports(&rt, input, out)
}

// Lines between functions and a function that stays as it is are left out.
#[test]
fn writes_reports_alone(rt: HostRuntime) -> Result<(), Fail> {
    let input = b"; two functions, and one that stays
define i8 @first(i8 noundef %x) {
  ret i8 %x
}

define ptr @stays(ptr %p) {
  ret ptr %p
}

define i1 @second(i1 %x) {
  ret i1 %x
}

attributes #0 = { nounwind }
";
    let out = b"function @first
  param %x i8 ???????? full never-poison
  block %0
    in %x i8 ???????? full never-poison
function @second
  param %x i1 ? full maybe-poison
  block %0
    in %x i1 ? full maybe-poison
";
    let status = Status::Done;
    let err = b"note: @stays carried: Shape at line 6
";
    check_run(
        &rt,
        "facts",
        roomy(&rt, input, 4096)?,
        End { status, out, err },
    )
}

#[test]
fn reports_on_no_function_of_an_empty_module(rt: HostRuntime) -> Result<(), Fail> {
    check_reports(&rt, b"", b"")
}

#[test]
fn a_strict_command_reports_on_no_module_with_a_carried_function(
    rt: HostRuntime,
) -> Result<(), Fail> {
    let want = End {
        status: Status::Refused,
        out: b"",
        err: b"refused: Strict @f: Shape at line 1\n",
    };
    check_words(
        &rt,
        &["facts", "--strict"],
        roomy(&rt, POINTER, 4096)?,
        want,
    )
}

#[test]
fn reports_are_the_same_for_more_workers(rt: HostRuntime) -> Result<(), Fail> {
    let input = b"define i1 @f(i1 noundef %x) {
  ret i1 %x
}

define i1 @g() {
  ret i1 true
}
";
    let want = End {
        status: Status::Done,
        out: b"function @f
  param %x i1 ? full never-poison
  block %0
    in %x i1 ? full never-poison
function @g
  block %0
",
        err: b"",
    };
    check_words(
        &rt,
        &["--workers", "2", "facts"],
        roomy(&rt, input, 4096)?,
        want,
    )
}
