//! Functions that read and are not well formed: each stays as it is, with its reason.
use super::*;

/// `%v` is defined on one of two ways to `r`.
pub const HALF: &[u8] = b"define i8 @half(i1 %c, i8 %x) {
entry:
  br i1 %c, label %l, label %r
l:
  %v = add i8 %x, 1
  br label %r
r:
  ret i8 %v
}
";

#[test]
fn carries_functions_that_are_not_well_formed(rt: HostRuntime) -> Result<(), Fail> {
    let cases: [(&[u8], &[u8]); 3] = [
        (HALF, b"note: @half carried: Undefined %v at %r\n"),
        (
            b"define i8 @f(i8 %x) {
  %a = zext i8 %x to i8
  ret i8 %a
}
",
            b"note: @f carried: Type at line 2\n",
        ),
        // The phi has no operand for the way from `a`.
        (
            b"define i8 @f(i1 %c, i8 %x) {
entry:
  br i1 %c, label %a, label %b
a:
  br label %b
b:
  %p = phi i8 [ %x, %entry ]
  ret i8 %p
}
",
            b"note: @f carried: Phi in %b\n",
        ),
    ];
    for (input, note) in cases {
        check_carried(&rt, input, note)?;
    }
    Ok(())
}

#[test]
fn refuses_a_function_that_is_not_well_formed(rt: HostRuntime) -> Result<(), Fail> {
    let want = End {
        status: Status::Refused,
        out: b"",
        err: b"refused: Strict @half: Undefined %v at %r\n",
    };
    check_words(&rt, &["opt", "--strict"], roomy(&rt, HALF, 4096)?, want)
}
