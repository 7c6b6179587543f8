//! The ten predicates side by side: what an edge tells of a name that is compared with a number.

use super::read;
use super::shown::line_of;
use super::states::entry;
use std::alloc::{AllocError, Global};
use std::process::Abort;
use vfa_ir::{BlockId, Outside, ValueId};
use vfa_xfer::AnyFact;

const X: ValueId = ValueId(0);

/// The block behind the edge where the comparison holds.
const YES: BlockId = BlockId(1);

/// The one behind the other edge.
const NO: BlockId = BlockId(2);

/// A predicate by its word, and the fact of a name behind the two edges where `predicate x, 100` is asked, and where
/// `predicate 100, x` is.
#[derive(Clone, Copy)]
struct Row {
    word: &'static [u8],
    yes: &'static [u8],
    no: &'static [u8],
    turned_yes: &'static [u8],
    turned_no: &'static [u8],
}

const ROWS: [Row; 10] = [
    Row {
        word: b"eq",
        yes: b"%x i8 01100100 [100,101) never-poison",
        no: b"%x i8 ???????? full never-poison",
        turned_yes: b"%x i8 01100100 [100,101) never-poison",
        turned_no: b"%x i8 ???????? full never-poison",
    },
    Row {
        word: b"ne",
        yes: b"%x i8 ???????? full never-poison",
        no: b"%x i8 01100100 [100,101) never-poison",
        turned_yes: b"%x i8 ???????? full never-poison",
        turned_no: b"%x i8 01100100 [100,101) never-poison",
    },
    Row {
        word: b"ugt",
        yes: b"%x i8 ???????? [101,0) never-poison",
        no: b"%x i8 0??????? [0,101) never-poison",
        turned_yes: b"%x i8 0??????? [0,100) never-poison",
        turned_no: b"%x i8 ???????? [100,0) never-poison",
    },
    Row {
        word: b"uge",
        yes: b"%x i8 ???????? [100,0) never-poison",
        no: b"%x i8 0??????? [0,100) never-poison",
        turned_yes: b"%x i8 0??????? [0,101) never-poison",
        turned_no: b"%x i8 ???????? [101,0) never-poison",
    },
    Row {
        word: b"ult",
        yes: b"%x i8 0??????? [0,100) never-poison",
        no: b"%x i8 ???????? [100,0) never-poison",
        turned_yes: b"%x i8 ???????? [101,0) never-poison",
        turned_no: b"%x i8 0??????? [0,101) never-poison",
    },
    Row {
        word: b"ule",
        yes: b"%x i8 0??????? [0,101) never-poison",
        no: b"%x i8 ???????? [101,0) never-poison",
        turned_yes: b"%x i8 ???????? [100,0) never-poison",
        turned_no: b"%x i8 0??????? [0,100) never-poison",
    },
    Row {
        word: b"sgt",
        yes: b"%x i8 011????? [101,128) never-poison",
        no: b"%x i8 ???????? full never-poison",
        turned_yes: b"%x i8 ???????? full never-poison",
        turned_no: b"%x i8 011????? [100,128) never-poison",
    },
    Row {
        word: b"sge",
        yes: b"%x i8 011????? [100,128) never-poison",
        no: b"%x i8 ???????? full never-poison",
        turned_yes: b"%x i8 ???????? full never-poison",
        turned_no: b"%x i8 011????? [101,128) never-poison",
    },
    Row {
        word: b"slt",
        yes: b"%x i8 ???????? full never-poison",
        no: b"%x i8 011????? [100,128) never-poison",
        turned_yes: b"%x i8 011????? [101,128) never-poison",
        turned_no: b"%x i8 ???????? full never-poison",
    },
    Row {
        word: b"sle",
        yes: b"%x i8 ???????? full never-poison",
        no: b"%x i8 011????? [101,128) never-poison",
        turned_yes: b"%x i8 011????? [100,128) never-poison",
        turned_no: b"%x i8 ???????? full never-poison",
    },
];

/// A function that asks whether the predicate holds of two operands.
fn asking(alloc: Global, word: &[u8], operands: &[u8]) -> Result<Vec<u8>, AllocError> {
    let mut text = Vec::new(alloc);
    text.extend_from_slice(b"define i8 @f(i8 %x) {\nentry:\n  %c = icmp ")?;
    text.extend_from_slice(word)?;
    text.extend_from_slice(operands)?;
    text.extend_from_slice(
        b"
  br i1 %c, label %yes, label %no

yes:
  ret i8 0

no:
  ret i8 0
}",
    )?;
    Ok(text)
}

/// The line of the fact of the name at the entry of the block; empty where no run comes there.
fn line_at(alloc: Global, text: &[u8], block: BlockId) -> Result<Vec<u8>, Outside> {
    let f = read(alloc, text)?;
    match entry::<AnyFact>(alloc, &f, block)? {
        Some(state) => Ok(line_of(alloc, f.function(), &state, X)?),
        None => Ok(Vec::new(alloc)),
    }
}

/// The name has these facts behind the edges where the predicate holds of the operands, and where it does not.
fn check_edges(
    rt: &impl Abort,
    alloc: Global,
    word: &[u8],
    operands: &[u8],
    yes: &[u8],
    no: &[u8],
) {
    let text = asking(alloc, word, operands).expect(rt, "memory");
    let found = line_at(alloc, text.as_slice(), YES).expect(rt, "a table");
    assert_eq!(rt; found.as_slice(), yes);
    let found = line_at(alloc, text.as_slice(), NO).expect(rt, "a table");
    assert_eq!(rt; found.as_slice(), no);
}

#[test]
fn each_predicate_tells_its_own_range(rt: HostRuntime) {
    let alloc = rt.alloc();
    'rows: for row in ROWS {
        check_edges(&rt, alloc, row.word, b" i8 %x, 100", row.yes, row.no);
    }
}

#[test]
fn each_predicate_tells_the_range_of_its_reverse_where_the_sides_are_exchanged(rt: HostRuntime) {
    let alloc = rt.alloc();
    'rows: for row in ROWS {
        check_edges(
            &rt,
            alloc,
            row.word,
            b" i8 100, %x",
            row.turned_yes,
            row.turned_no,
        );
    }
}
