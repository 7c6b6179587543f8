//! Functions, as texts.

use std::alloc::{AllocError, Global};

/// How many opposites of a condition stand one behind the other.
pub const OPPOSITES: u32 = 5;

const BEFORE: &[u8] = b"define i8 @f(i8 %x, i8 %y, i1 %p, i1 %q) {\nentry:\n";

const CHAIN: &[u8] = b"  %o1 = xor i1 %c, true
  %o2 = xor i1 %o1, true
  %o3 = xor i1 %o2, true
  %o4 = xor i1 %o3, true
  %o5 = xor i1 %o4, true
";

const AFTER: &[u8] = b"  br label %at\n\nat:\n  ret i8 0\n}";

/// A condition on a sum.
pub const SUM: &[u8] = b"define i8 @w(i8 %x) {
entry:
  %y = add i8 %x, -10
  %c = icmp ult i8 %y, 5
  br i1 %c, label %in, label %out

in:
  ret i8 %x

out:
  ret i8 %x
}";

/// A loop that counts to 10.
pub const COUNTER: &[u8] = b"define i32 @count() {
entry:
  br label %head

head:
  %i = phi i32 [ 0, %entry ], [ %n, %body ]
  %c = icmp ult i32 %i, 10
  br i1 %c, label %body, label %exit

body:
  %n = add i32 %i, 1
  br label %head

exit:
  ret i32 %i
}";

/// A loop that is left by the condition of the turn before.
pub const STALE: &[u8] = b"define i8 @stale(i8 %k) {
entry:
  br label %head

head:
  %a = phi i8 [ 0, %entry ], [ %b, %head ]
  %c = phi i1 [ true, %entry ], [ %d, %head ]
  %b = add i8 %a, %k
  %d = icmp ult i8 %a, 5
  br i1 %c, label %head, label %exit

exit:
  ret i8 %a
}";

/// Two edges from one block to another.
pub const SWITCH: &[u8] = b"define i8 @sw(i8 %x) {
p:
  switch i8 %x, label %other [
    i8 1, label %join
    i8 2, label %join
  ]

join:
  %r = phi i8 [ %x, %p ], [ %x, %p ]
  ret i8 %r

other:
  ret i8 0
}";

/// An assumption that fails.
pub const DEAD: &[u8] = b"define i8 @dead(i8 %x) {
entry:
  call void @llvm.assume(i1 false)
  br label %next

next:
  ret i8 %x
}";

/// A function of two bytes and two bits, whose second block begins behind the equations.
pub fn with_equations(alloc: Global, equations: &[u8]) -> Result<Vec<u8>, AllocError> {
    let mut text = Vec::new(alloc);
    text.extend_from_slice(BEFORE)?;
    text.extend_from_slice(equations)?;
    text.extend_from_slice(AFTER)?;
    Ok(text)
}

/// The same, with opposites of the condition `%c` behind it.
pub fn with_opposites(alloc: Global, equations: &[u8]) -> Result<Vec<u8>, AllocError> {
    let mut all = Vec::new(alloc);
    all.extend_from_slice(equations)?;
    all.extend_from_slice(CHAIN)?;
    with_equations(alloc, all.as_slice())
}
