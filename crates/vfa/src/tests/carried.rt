//! Functions that stay as they are, each with its reason.
use super::*;

#[test]
fn carries_functions(rt: HostRuntime) -> Result<(), Fail> {
    let cases: [(&[u8], &[u8]); 9] = [
        (POINTER, POINTER_NOTE),
        (
            b"

define i8 @\"f g\"(i8 %x) {
  %a = load i8, ptr %x
  ret i8 %a
}
",
            b"note: @\"f g\" carried: Shape at line 4\n",
        ),
        (
            b"define i8 @f(i8 %x) {
  %x = and i8 %x, 1
  ret i8 %x
}
",
            b"note: @f carried: Duplicate %x\n",
        ),
        // A parameter without a name is named by the number of those before it.
        (
            b"define i8 @f(i8 %1, i8) {
  ret i8 %1
}
",
            b"note: @f carried: Duplicate %1\n",
        ),
        (
            b"define i8 @f(i8 %x) {
  ret i8 %y
}
",
            b"note: @f carried: Unknown %y\n",
        ),
        // A quoted name of digits alone.
        (
            b"define i8 @f(i8 %x) {
  %a = xor i8 %\"5\", 1
  ret i8 %a
}
",
            b"note: @f carried: Shape at line 2\n",
        ),
        (
            b"define i8 @f(i8 %x) {
  br label %b
\"5\":
  ret i8 %x
}
",
            b"note: @f carried: Shape at line 3\n",
        ),
        (
            b"define i8 @\"5\"(i8 %x) {
  ret i8 %x
}
",
            b"note: @5 carried: Shape at line 1\n",
        ),
        (
            b"define i1 @f() {
  ret i1 2
}
",
            b"note: @f carried: Shape at line 2\n",
        ),
    ];
    for (input, note) in cases {
        check_carried(&rt, input, note)?;
    }
    Ok(())
}

#[test]
fn carries_lines_outside_the_grammar(rt: HostRuntime) -> Result<(), Fail> {
    let lines: [&str; 7] = [
        "%a = and i8 %x, 1111111111111111111111111111111111111111",
        "%a = and i8 %x, -129",
        "%a = freeze i08 %x",
        "%a = musttail call i8 @llvm.umin.i8(i8 %x, i8 1)",
        "%a = extractvalue { i8, i1 } %x, 00",
        "%a = freeze i8 %x, !5 !5",
        "%a = freeze i8 %x, !dbg !-5",
    ];
    for line in lines {
        let input = format!(in rt.alloc();
            "define i8 @f(i8 %x) {{\nentry:\n  {line}\n  ret i8 %x\n}}\n"
        )?;
        check_carried(
            &rt,
            input.as_bytes(),
            b"note: @f carried: Shape at line 3\n",
        )?;
    }
    Ok(())
}
