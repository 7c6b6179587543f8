//! Generated texts, against the lengths and checksums of texts that another program made by the same rules.

use super::*;
use std::alloc::{AllocError, Global};
use vfa_opt::{generated, summary};

/// The 64-bit FNV-1a hash.
fn checksum(text: &[u8]) -> u64 {
    let mut hash: u64 = 0xcbf2_9ce4_8422_2325;
    'bytes: for byte in text {
        hash = (hash ^ u64::from(*byte)).wrapping_mul(0x100_0000_01b3);
    }
    hash
}

fn is_text(alloc: Global, seed: u32, length: usize, sum: u64) -> Result<bool, AllocError> {
    let text = generated(alloc, seed)?;
    Ok(text.len() == length && checksum(&text) == sum)
}

#[test]
fn texts_of_three_seeds(rt: HostRuntime) -> Result<(), Fail> {
    assert!(rt; is_text(rt.alloc(), 0, 315_986, 0x48b0_947c_6a6c_8b31)?);
    assert!(rt; is_text(rt.alloc(), 7, 316_369, 0x4d7b_d380_d2a6_4831)?);
    assert!(rt; is_text(rt.alloc(), 4_294_967_295, 315_434, 0x1873_1594_b505_fb92)?);
    Ok(())
}

#[test]
fn first_lines(rt: HostRuntime) -> Result<(), Fail> {
    let text = generated(rt.alloc(), 7)?;
    let want =
        b"define i95 @g0(i95 %a, i95 noundef %b) {\nentry:\n  %v0 = shl i95 %b, %b\n  %v1 = add i95 %b, 61659\n";
    assert!(rt; text.starts_with(want));
    assert!(rt; text.ends_with(b"\n\ne:\n  ret i56 %v2\n}\n"));
    Ok(())
}

#[test]
fn five_lines(rt: HostRuntime) -> Result<(), Fail> {
    let text = summary(rt.alloc(), 7, 316_369, 12, 0)?;
    let want = b"seed 7\nfunctions 256\nread 316369 bytes\nprinted 12 bytes\ncarried 0\n";
    assert!(rt; text.as_slice() == want.as_slice());
    Ok(())
}
