//! The words of the language: those that operations, predicates and intrinsics are written by.

ghost use Rattle.std.specs.Prelude.{◌≡◌, ℕ, List, map};
ghost use Rattle.vfa_ir.specs.Words.{is_among as among, keyword, bin_word, cast_word, fun1_word, fun2_word, over_word, pred_word};

use crate::operations::{Bin, Cast, Fun1, Fun2, Over, Pred};

/// A value that is written by a word of its own.
pub trait Keyword: Copy + Drop {
    ghost spelled: { Self → List ℕ };

    /// The word.
    fn word(self) -> &'static [u8]
        ensures { result.now ≡ spelled self };
}

/// The first of these values that is written so; none where none is.
///
/// Of all binary operations, `xor` is that of `Bin::Xor`, and `nor` is none.
pub fn keyword_of<K: Keyword>(all: &[K], text: &[u8]) -> Option<K>
    ensures { result ≡ keyword K.spelled all.now text.now }
{
    all.iter().copied().find(|k| k.word() == text)
}

impl Bin {
    /// All binary operations.
    pub const ALL: [Bin; 13] = [
        Bin::Add,
        Bin::Sub,
        Bin::Mul,
        Bin::Shl,
        Bin::Udiv,
        Bin::Sdiv,
        Bin::Lshr,
        Bin::Ashr,
        Bin::Urem,
        Bin::Srem,
        Bin::And,
        Bin::Or,
        Bin::Xor,
    ];
}

impl Keyword for Bin {
    ghost spelled = { bin_word };

    fn word(self) -> &'static [u8] {
        match self {
            Bin::Add => b"add",
            Bin::Sub => b"sub",
            Bin::Mul => b"mul",
            Bin::Shl => b"shl",
            Bin::Udiv => b"udiv",
            Bin::Sdiv => b"sdiv",
            Bin::Lshr => b"lshr",
            Bin::Ashr => b"ashr",
            Bin::Urem => b"urem",
            Bin::Srem => b"srem",
            Bin::And => b"and",
            Bin::Or => b"or",
            Bin::Xor => b"xor",
        }
    }
}

impl Pred {
    /// All predicates.
    pub const ALL: [Pred; 10] = [
        Pred::Eq,
        Pred::Ne,
        Pred::Ugt,
        Pred::Uge,
        Pred::Ult,
        Pred::Ule,
        Pred::Sgt,
        Pred::Sge,
        Pred::Slt,
        Pred::Sle,
    ];
}

impl Keyword for Pred {
    ghost spelled = { pred_word };

    fn word(self) -> &'static [u8] {
        match self {
            Pred::Eq => b"eq",
            Pred::Ne => b"ne",
            Pred::Ugt => b"ugt",
            Pred::Uge => b"uge",
            Pred::Ult => b"ult",
            Pred::Ule => b"ule",
            Pred::Sgt => b"sgt",
            Pred::Sge => b"sge",
            Pred::Slt => b"slt",
            Pred::Sle => b"sle",
        }
    }
}

impl Cast {
    /// All conversions.
    pub const ALL: [Cast; 3] = [Cast::Zext, Cast::Sext, Cast::Trunc];
}

impl Keyword for Cast {
    ghost spelled = { cast_word };

    fn word(self) -> &'static [u8] {
        match self {
            Cast::Zext => b"zext",
            Cast::Sext => b"sext",
            Cast::Trunc => b"trunc",
        }
    }
}

impl Fun2 {
    /// All intrinsics of two arguments.
    pub const ALL: [Fun2; 8] = [
        Fun2::Umin,
        Fun2::Umax,
        Fun2::Smin,
        Fun2::Smax,
        Fun2::UaddSat,
        Fun2::UsubSat,
        Fun2::SaddSat,
        Fun2::SsubSat,
    ];
}

impl Keyword for Fun2 {
    ghost spelled = { fun2_word };

    fn word(self) -> &'static [u8] {
        match self {
            Fun2::Umin => b"umin",
            Fun2::Umax => b"umax",
            Fun2::Smin => b"smin",
            Fun2::Smax => b"smax",
            Fun2::UaddSat => b"uadd.sat",
            Fun2::UsubSat => b"usub.sat",
            Fun2::SaddSat => b"sadd.sat",
            Fun2::SsubSat => b"ssub.sat",
        }
    }
}

impl Fun1 {
    /// All intrinsics of one argument.
    pub const ALL: [Fun1; 4] = [Fun1::Abs, Fun1::Ctlz, Fun1::Cttz, Fun1::Ctpop];
}

impl Keyword for Fun1 {
    ghost spelled = { fun1_word };

    fn word(self) -> &'static [u8] {
        match self {
            Fun1::Abs => b"abs",
            Fun1::Ctlz => b"ctlz",
            Fun1::Cttz => b"cttz",
            Fun1::Ctpop => b"ctpop",
        }
    }
}

impl Over {
    /// All intrinsics whose result is a pair.
    pub const ALL: [Over; 6] = [
        Over::Uadd,
        Over::Sadd,
        Over::Usub,
        Over::Ssub,
        Over::Umul,
        Over::Smul,
    ];
}

impl Keyword for Over {
    ghost spelled = { over_word };

    fn word(self) -> &'static [u8] {
        match self {
            Over::Uadd => b"uadd.with.overflow",
            Over::Sadd => b"sadd.with.overflow",
            Over::Usub => b"usub.with.overflow",
            Over::Ssub => b"ssub.with.overflow",
            Over::Umul => b"umul.with.overflow",
            Over::Smul => b"smul.with.overflow",
        }
    }
}

/// What may stand between `define` and the type of the result.
pub const LEAD_WORDS: [&[u8]; 22] = [
    b"private",
    b"internal",
    b"available_externally",
    b"linkonce",
    b"weak",
    b"linkonce_odr",
    b"weak_odr",
    b"external",
    b"dso_local",
    b"dso_preemptable",
    b"default",
    b"hidden",
    b"protected",
    b"dllexport",
    b"ccc",
    b"fastcc",
    b"coldcc",
    b"tailcc",
    b"noundef",
    b"zeroext",
    b"signext",
    b"inreg",
];

/// What may stand between the type of a parameter or of an argument and its name or value.
pub const PARAMETER_WORDS: [&[u8]; 5] = [b"noundef", b"zeroext", b"signext", b"inreg", b"returned"];

/// What may stand between `call` and the type of the result.
pub const CALL_WORDS: [&[u8]; 8] = [
    b"ccc", b"fastcc", b"coldcc", b"tailcc", b"noundef", b"zeroext", b"signext", b"inreg",
];

/// Whether the text is one of these words.
///
/// `fastcc` is among the words of calls, `nuw` is not.
pub fn is_among(text: &[u8], words: &[&[u8]]) -> bool
    ensures { result ≡ among text.now (map (λ w. w.now) words.now) }
{
    'words: for word in words {
        if text == *word {
            return true;
        }
    }
    false
}
