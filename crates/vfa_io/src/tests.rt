//! A whole read and a whole write, and faults in mid-stream.
ghost use Rattle.std.specs.Prelude.{ℕ, ◌<◌, ◌^◌, None};

use super::*;
use std::marker::Model;
use std::test::Fail;

#[test]
fn reads_in_pieces(rt: HostRuntime) -> Result<(), Fail> {
    let mut source = MemSource::new(b"abcdefgh".to_vec(rt.alloc())?, 3, Vec::new(rt.alloc()));
    assert_eq!(rt;
        read_all(rt.alloc(), &mut source, 8)?.as_slice(),
        b"abcdefgh".as_slice()
    );
    let mut rest = [0; 4];
    assert_eq!(rt; source.read(&mut rest), Ok(0));
    Ok(())
}

#[test]
fn refuses_one_byte_too_many(rt: HostRuntime) -> Result<(), Fail> {
    let mut source = MemSource::new(b"abcdefgh".to_vec(rt.alloc())?, 3, Vec::new(rt.alloc()));
    assert_eq!(rt;
        read_all(rt.alloc(), &mut source, 7).err(),
        Some(ReadFault::TooLong)
    );
    Ok(())
}

#[test]
fn stops_at_a_fault(rt: HostRuntime) -> Result<(), Fail> {
    let failing = [2].to_vec(rt.alloc())?;
    let mut source = MemSource::new(b"abcdefgh".to_vec(rt.alloc())?, 3, failing);
    assert_eq!(rt;
        read_all(rt.alloc(), &mut source, 8).err(),
        Some(ReadFault::Read)
    );
    let mut rest = [0; 8];
    assert_eq!(rt; source.read(&mut rest), Ok(3));
    assert_eq!(rt; rest, *b"def\0\0\0\0\0");
    Ok(())
}

#[test]
fn writes_up_to_the_room(rt: HostRuntime) -> Result<(), Fail> {
    let mut sink = MemSink::new(rt.alloc(), 5, Vec::new(rt.alloc()))?;
    assert_eq!(rt; write_all(&mut sink, b"abc"), Ok(()));
    assert_eq!(rt; write_all(&mut sink, b"defg"), Err(Failed));
    assert_eq!(rt; sink.bytes(), b"abcde".as_slice());
    Ok(())
}

/// A source of three bytes, which fails where it is lent fewer than 4096.
#[derive(Drop)]
struct Choosy {
    given: bool,
    faults: u64,
}

impl Model for Choosy {
    ghost Value = { ℕ };

    ghost view = { λ s. s.faults };

    ghost invariant = { λ s. s.faults < 2 ^ 64 };
}

impl Source for Choosy {
    ghost state = { λ s. record { left = None; faults = s } };

    fn read(&mut self, buf: &mut [u8]) -> Result<usize, Failed> {
        if buf.len() < 4096 {
            self.faults = self.faults.saturating_add(1);
            return Err(Failed);
        }
        if self.given {
            return Ok(0);
        }
        self.given = true;
        buf[..3].copy_from_slice(b"abc");
        Ok(3)
    }
}

#[test]
fn lends_at_least_4096_bytes(rt: HostRuntime) -> Result<(), Fail> {
    let mut source = Choosy {
        given: false,
        faults: 0,
    };
    assert_eq!(rt;
        read_all(rt.alloc(), &mut source, 16)?.as_slice(),
        b"abc".as_slice()
    );
    Ok(())
}
