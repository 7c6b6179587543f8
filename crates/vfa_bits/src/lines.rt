//! Operations as they are written anew.

ghost use Rattle.std.specs.Prelude.{◌≡◌, ◌^◌, nat_lt};
ghost use Rattle.vfa_bits.specs.Changed as changed;
ghost use Rattle.vfa_bits.specs.Narrowed as narrowed;

use vfa_ir::{Cast, CastFlags, Op};

/// Whether a mask has no bit from a place on.
fn is_below(mask: u128, place: u32) -> bool
    ensures { result ≡ nat_lt mask (2 ^ place) }
{
    if place >= 128 {
        return true;
    }
    mask >> place == 0
}

/// Whether a mask, which asks for bits of the result, asks for no copy of the sign of a `sext`.
pub(crate) fn has_unseen_sign(op: &Op, mask: u128) -> bool
    ensures { result ≡ changed.has_unseen_sign op.now mask }
{
    match *op {
        Op::Cast {
            cast: Cast::Sext,
            from,
            ..
        } => is_below(mask, from),
        _ => false,
    }
}

/// A `sext` as `zext`; any other operation as it is.
fn with_zeros(op: &Op) -> Op
    ensures { result ≡ narrowed.with_zeros op.now }
{
    match *op {
        Op::Cast {
            cast: Cast::Sext,
            from,
            to,
            a,
            ..
        } => Op::Cast {
            cast: Cast::Zext,
            flags: CastFlags {
                nuw: false,
                nsw: false,
                nneg: false,
            },
            from,
            to,
            a,
        },
        op => op,
    }
}

/// The operation where these bits of its result are asked for: a `sext` none of whose copies of the sign is becomes a `zext`.
///
/// Where 255 is asked for, `sext i8 %x to i32` becomes `zext i8 %x to i32`; where 511 is, it stays.
pub fn narrowed_cast(op: &Op, mask: u128) -> Op
    ensures { result ≡ narrowed.narrowed_cast op.now mask }
{
    if has_unseen_sign(op, mask) {
        return with_zeros(op);
    }
    *op
}

/// The operation without its flags where an operand may have changed: a flag that held of the old operand need not hold of
/// the new one, and then it would make the result poison.
pub fn lost_flags(changed: bool, op: &Op) -> Op
    ensures { result ≡ narrowed.lost_flags changed op.now }
{
    if changed {
        return op.bare();
    }
    *op
}
