//! Loops whose facts stay from the fourth round on, and from later ones up to the ninth.

use super::entries::check_entry;
use std::alloc::{AllocError, Global};
use std::test::Fail;

/// A loop that counts to 60 or stands still, with these operations in it.
fn counting(alloc: Global, operations: &[u8]) -> Result<Vec<u8>, AllocError> {
    let mut text = Vec::new(alloc);
    text.extend_from_slice(
        b"define i8 @f(i1 noundef %k) {
entry:
  br label %head

head:
  %i = phi i8 [ 0, %entry ], [ %n, %head ]
  %m = add i8 %i, 1
  %u = call i8 @llvm.umin.i8(i8 %m, i8 60)
",
    )?;
    text.extend_from_slice(operations)?;
    text.extend_from_slice(
        b"  %n = select i1 %k, i8 %i, i8 %u
  br i1 %k, label %head, label %exit

exit:
  ret i8 %i
}",
    )?;
    Ok(text)
}

/// Operations whose literals are landmarks below 60.
const OPERATIONS: [&[u8]; 5] = [
    b"  %d1 = xor i8 %i, 10\n",
    b"  %d2 = xor i8 %i, 20\n",
    b"  %d3 = xor i8 %i, 30\n",
    b"  %d4 = xor i8 %i, 40\n",
    b"  %d5 = xor i8 %i, 50\n",
];

// From the fourth round on the counter goes to the next landmark in each round, and in the ninth it may be any number.
#[test]
fn a_counter_goes_from_landmark_to_landmark_until_the_ninth_round(
    rt: HostRuntime,
) -> Result<(), Fail> {
    let alloc = rt.alloc();
    let bounded = b"%k i1 ? full never-poison\n%i i8 00?????? [0,61) never-poison\n";
    let unbounded = b"%k i1 ? full never-poison\n%i i8 ???????? full never-poison\n";
    let mut operations = Vec::new(alloc);
    for operation in OPERATIONS {
        let text = counting(alloc, operations.as_slice())?;
        check_entry(&rt, alloc, text.as_slice(), 1, bounded);
        operations.extend_from_slice(operation)?;
    }
    let text = counting(alloc, operations.as_slice())?;
    check_entry(&rt, alloc, text.as_slice(), 1, unbounded);
    Ok(())
}
