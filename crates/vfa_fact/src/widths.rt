/// The call at a width that is a number of the program, from 1 to 128: `at_width!(width, call, (a, b))` is
/// `call::<8>(a, b)` where the width is 8. That the width is one of these has to be known (`IsWidth`).
///
/// A crate above names it by `use vfa_fact::at_width;`. Each use makes 128 arms, so a function of its own with one use, and
/// one clause, is best.
#[macro_export]
macro_rules! at_width {
    ($width:expr, $call:ident, $args:tt) => {
        $crate::at_width!(
            $width, $call, $args,
            1 2 3 4 5 6 7 8 9 10 11 12 13 14 15 16
            17 18 19 20 21 22 23 24 25 26 27 28 29 30 31 32
            33 34 35 36 37 38 39 40 41 42 43 44 45 46 47 48
            49 50 51 52 53 54 55 56 57 58 59 60 61 62 63 64
            65 66 67 68 69 70 71 72 73 74 75 76 77 78 79 80
            81 82 83 84 85 86 87 88 89 90 91 92 93 94 95 96
            97 98 99 100 101 102 103 104 105 106 107 108 109 110 111 112
            113 114 115 116 117 118 119 120 121 122 123 124 125 126 127 128
        )
    };
    ($width:expr, $call:ident, $args:tt, $($n:literal)*) => {
        match $width {
            $($n => $call::<$n> $args,)*
            _ => unreachable!(),
        }
    };
}
