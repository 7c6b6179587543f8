//! What conditions say of names, through as many equations as are followed.

use super::*;

/// What a condition says of two names, where it stands behind at most `deepest` equations.
#[derive(Clone, Copy)]
struct Row {
    bit: u128,
    first: ValueId,
    second: ValueId,
    facts: Facts,
    deepest: u32,
}

fn restricts(bit: u128, first: ValueId, second: ValueId, facts: Facts, deepest: u32) -> Row {
    Row {
        bit,
        first,
        second,
        facts,
        deepest,
    }
}

fn given(first: Constant, second: Constant) -> Facts {
    Facts {
        first: Some(first),
        second: Some(second),
    }
}

/// The rows of the conditions, in their order.
fn rows() -> [Row; 9] {
    let (set, clear) = (only(BIT, 1), only(BIT, 0));
    [
        restricts(1, LOW, A, given(set, number(BYTE)), 3),
        restricts(1, A, B, given(only(BYTE, 7), only(BYTE, 7)), 3),
        restricts(1, P, Q, given(set, set), 3),
        restricts(0, P, Q, given(clear, clear), 3),
        restricts(1, P, Q, given(clear, any(BIT)), 3),
        restricts(1, P, Q, given(set, set), 3),
        restricts(0, P, Q, given(clear, clear), 3),
        restricts(1, SUM, A, given(only(BYTE, 10), number(BYTE)), 2),
        restricts(1, MASKED, A, given(only(BYTE, 5), number(BYTE)), 2),
    ]
}

#[test]
fn each_condition_restricts_through_four_equations_and_no_more(
    rt: HostRuntime,
) -> Result<(), Fail> {
    let alloc = rt.alloc();
    let mut before = Vec::new(alloc);
    for v in 0..NAMES {
        let v = ValueId(v);
        before.push((
            v,
            if v == B {
                only(BYTE, 7)
            } else {
                any(width_of(v))
            },
        ))?;
    }
    let mut place = 0u32;
    for row in rows() {
        let condition = CONDITIONS[place as usize % CONDITIONS.len()];
        for behind in 0..5u32 {
            let v = if behind == 0 {
                condition
            } else {
                opposite(place, behind)
            };
            let bit = (row.bit ^ u128::from(behind)) & 1;
            let found = facts_of(
                &rt,
                alloc,
                before.as_slice(),
                NONE,
                v,
                bit,
                row.first,
                row.second,
            );
            if behind <= row.deepest {
                assert_eq!(rt; found, Some(row.facts), "{behind} behind {place}");
            } else {
                assert_ne!(rt; found, Some(row.facts), "{behind} behind {place}");
            }
        }
        place = place.wrapping_add(1);
    }
    Ok(())
}
