//! Lines that stay though nobody uses their results.

use super::*;

#[test]
fn a_division_that_may_be_undefined_stays(rt: HostRuntime) -> Result<(), Fail> {
    let alloc = rt.alloc();
    let unchanged = b"define i8 @keep(i8 %x, i8 noundef %y) {
  %q = udiv i8 1, %y
  ret i8 %x
}";
    check_rewritten(&rt, alloc, unchanged, unchanged)?;
    check_rewritten(
        &rt,
        alloc,
        b"define i8 @keep(i8 %x, i8 noundef %y) {
  %q = udiv i8 %x, 3
  ret i8 %x
}",
        b"define i8 @keep(i8 %x, i8 noundef %y) {
  ret i8 %x
}",
    )
}

#[test]
fn calls_stay_and_are_made_with_numbers(rt: HostRuntime) -> Result<(), Fail> {
    let alloc = rt.alloc();
    check_rewritten(
        &rt,
        alloc,
        b"define i8 @h(i8 %x) {
  %a = and i8 %x, 15
  %b = and i8 %a, -16
  %r = call i8 @g(i8 %b)
  %z = call i8 @g(i8 %r)
  ret i8 %b
}",
        b"define i8 @h(i8 %x) {
  %r = call i8 @g(i8 0)
  %z = call i8 @g(i8 %r)
  ret i8 0
}",
    )?;
    let unchanged = b"define i8 @nu(i8 %x) {
  %r = call noundef i8 @g(i8 noundef %x)
  ret i8 %r
}";
    check_rewritten(&rt, alloc, unchanged, unchanged)
}

/// A function of so many results, `%a1 = xor i8 %x, 1` and so on, of which none is used.
fn unused_results(alloc: Global, count: u32) -> Result<Vec<u8>, Fail> {
    let mut text = b"define i8 @n(i8 %x) {\n".to_vec(alloc)?;
    'results: for k in 1..=count {
        let line = format!(in alloc; "  %a{k} = xor i8 %x, 1\n")?;
        text.extend_from_slice(line.as_bytes())?;
    }
    text.extend_from_slice(b"  ret i8 %x\n}")?;
    Ok(text)
}

#[test]
fn as_many_unused_results_as_a_function_may_have_go(rt: HostRuntime) -> Result<(), Fail> {
    let alloc = rt.alloc();
    let text = unused_results(alloc, 4095)?;
    check_rewritten(
        &rt,
        alloc,
        text.as_slice(),
        b"define i8 @n(i8 %x) {
  ret i8 %x
}",
    )
}
