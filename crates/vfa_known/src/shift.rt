ghost use Rattle.std.specs.Prelude.{◌≡◌, ◌≢◌, ◌+◌, ◌^◌, ◌<◌, ◌≤◌};
ghost use Rattle.std.specs.Bool.{OnTrue};
ghost use Rattle.vfa_dom.specs.Best.{best_of};
ghost use Rattle.vfa_dom.specs.Results.{images, results_over, UnknownShiftsVary};
ghost use Rattle.vfa_word.specs.Numbers.{IsWidth};
ghost use Rattle.vfa_word.specs.Operations.{shifted_left, shifted_right, shifted_right_signed};
ghost use Rattle.vfa_known.specs.AmountRuns.{IsLowestRun, IsRest, AreKnownOverRun};
ghost use Rattle.vfa_known.specs.Runs.{AreLasting, ZerosLast, OnesLast};
ghost use Rattle.vfa_known.specs.Shift.{shift_of, zeros_from_outside};

use crate::known::Known;
use crate::runs::{high_run, low_run};
use vfa_dom::Domain;
use vfa_word::{Word, most};

/// The three shifts, of which one body goes over the amounts.
#[derive(Clone, Copy)]
enum Shift {
    Left,
    Logical,
    Arithmetic,
}

/// Amounts one after another.
#[derive(Clone, Copy)]
struct AmountRun {
    first: u32,
    count: u32,
}

/// The run of amounts that begins with the least one.
fn lowest_run<const W: u32>(amounts: u128) -> AmountRun
    requires width { IsWidth W }
    requires some { amounts ≢ 0 }
    requires below { amounts < 2 ^ W }
    ensures { IsLowestRun W amounts result.first result.count }
{
    let first = amounts.trailing_zeros();
    let count = (amounts >> first).trailing_ones();
    AmountRun { first, count }
}

/// The amounts that are not in the run.
fn without_run<const W: u32>(amounts: u128, run: AmountRun) -> u128
    requires width { IsWidth W }
    requires run { IsLowestRun W amounts run.first run.count }
    ensures { IsRest amounts run.first run.count result }
{
    let up_to = u128::MAX >> (128 - (run.first + run.count));
    let below = (1 << run.first) - 1;
    amounts ^ (up_to - below)
}

impl<const W: u32> Known<W> {
    ghost use Rattle.vfa_known.specs.Known.{masks_of, in_known};

    /// The best known bits of x * 2^t modulo 2^W over all x of `self` and all amounts t of the set, LLVM's `shl`. Bit t
    /// of `amounts` says that t is possible.
    ///
    /// At width 4 the bits `00?1` by the amounts 1 and 2 give `???0`: 1 and 3 become 2 and 6, or 4 and 12.
    pub fn shl(&self, amounts: u128) -> Known<W>
        requires some { amounts ≢ 0 }
        requires below { amounts < 2 ^ W }
        ensures best { masks_of result ≡ best_of W (results_over W (shifted_left W) (in_known W self.now) amounts) }
        ensures unknown { UnknownShiftsVary W (shifted_left W) (in_known W self.now) amounts (masks_of result) }
    {
        self.shifted_over(Shift::Left, amounts)
    }

    /// The best known bits of x / 2^t over all x of `self` and all amounts t of the set, LLVM's `lshr`. Bit t of
    /// `amounts` says that t is possible.
    ///
    /// At width 4 the bits `1??0` by the amounts 1 and 2 give `0???`: the results are 4 to 7, and 2 and 3.
    pub fn lshr(&self, amounts: u128) -> Known<W>
        requires some { amounts ≢ 0 }
        requires below { amounts < 2 ^ W }
        ensures best { masks_of result ≡ best_of W (results_over W shifted_right (in_known W self.now) amounts) }
        ensures unknown { UnknownShiftsVary W shifted_right (in_known W self.now) amounts (masks_of result) }
    {
        self.shifted_over(Shift::Logical, amounts)
    }

    /// The best known bits of the signed reading of x by 2^t, rounded down, over all x of `self` and all amounts t of
    /// the set, LLVM's `ashr`. Bit t of `amounts` says that t is possible.
    ///
    /// At width 4 the bits `10?0` by the amounts 1 and 3 give `11??`: the results are 12 and 13, and 15.
    pub fn ashr(&self, amounts: u128) -> Known<W>
        requires some { amounts ≢ 0 }
        requires below { amounts < 2 ^ W }
        ensures best { masks_of result ≡ best_of W (results_over W (shifted_right_signed W) (in_known W self.now) amounts) }
        ensures unknown { UnknownShiftsVary W (shifted_right_signed W) (in_known W self.now) amounts (masks_of result) }
    {
        self.shifted_over(Shift::Arithmetic, amounts)
    }

    /// The best known bits over all amounts: what is known alike of the shifts by each one.
    fn shifted_over(&self, shift: Shift, amounts: u128) -> Known<W>
        requires some { amounts ≢ 0 }
        requires below { amounts < 2 ^ W }
        ensures best { masks_of result ≡ best_of W (results_over W (shift_of shift W) (in_known W self.now) amounts) }
        ensures unknown { UnknownShiftsVary W (shift_of shift W) (in_known W self.now) amounts (masks_of result) }
    {
        let run = lowest_run::<W>(amounts);
        let mut all = self.shifted_by_run(shift, run);
        let mut left = without_run::<W>(amounts, run);
        while left != 0 {
            if all.lasts(shift) {
                return all;
            }
            let next = lowest_run::<W>(left);
            all = all.join(&self.shifted_by_run(shift, next));
            left = without_run::<W>(left, next);
        }
        all
    }

    /// What is known alike of the shifts by each amount of the run.
    fn shifted_by_run(&self, shift: Shift, run: AmountRun) -> Known<W>
        requires some { 1 ≤ run.count }
        requires below { run.first + run.count ≤ W }
        ensures { AreKnownOverRun W (λ t. images W (λ x. shift_of shift W x t) (in_known W self.now)) run.first run.count (masks_of result) }
    {
        let mut all = self.shifted(shift, run.first);
        let mut done = 1;
        while done < run.count {
            if all.lasts(shift) {
                return all;
            }
            // the shifts so far, shifted on, are those by as many further amounts
            let more = done.min(run.count - done);
            all = all.join(&all.shifted(shift, more));
            done += more;
        }
        all
    }

    /// Whether all that is known stays known whatever this is shifted by: no further amount changes anything.
    fn lasts(&self, shift: Shift) -> bool
        ensures { OnTrue result (AreLasting shift W (masks_of self.now)) }
    {
        if lasting_zeros::<W>(shift, self.zeros) != self.zeros {
            return false;
        }
        lasting_ones::<W>(shift, self.ones) == self.ones
    }

    /// The best known bits of the shift by one amount.
    fn shifted(&self, shift: Shift, amount: u32) -> Known<W>
        requires { amount < W }
        ensures { masks_of result ≡ best_of W (images W (λ x. shift_of shift W x amount) (in_known W self.now)) }
    {
        Known {
            zeros: shifted_bits::<W>(shift, self.zeros, amount)
                | zeros_from_outside::<W>(shift, amount),
            ones: shifted_bits::<W>(shift, self.ones, amount),
        }
    }
}

/// The known zeros that stay known: those that stand with zeros alone up to the end from which the shift moves.
fn lasting_zeros<const W: u32>(shift: Shift, zeros: u128) -> u128
    requires width { IsWidth W }
    requires fits { zeros < 2 ^ W }
    ensures { ZerosLast shift W zeros result }
{
    match shift {
        Shift::Left => low_run::<W>(zeros),
        Shift::Logical => high_run::<W>(zeros),
        Shift::Arithmetic => high_run::<W>(zeros),
    }
}

/// The known ones that stay known: where the sign is one of them, those that stand with ones alone up to it.
fn lasting_ones<const W: u32>(shift: Shift, ones: u128) -> u128
    requires width { IsWidth W }
    requires fits { ones < 2 ^ W }
    ensures { OnesLast shift W ones result }
{
    match shift {
        Shift::Left => 0,
        Shift::Logical => 0,
        Shift::Arithmetic => high_run::<W>(ones),
    }
}

/// The bits of a number of width `W`, shifted.
fn shifted_bits<const W: u32>(shift: Shift, bits: u128, amount: u32) -> u128
    requires width { IsWidth W }
    requires fits { bits < 2 ^ W }
    requires below { amount < W }
    ensures { result ≡ shift_of shift W bits amount }
{
    let number = Word::<W>::cut(bits);
    match shift {
        Shift::Left => number.shl(amount).bits(),
        Shift::Logical => number.lshr(amount).bits(),
        Shift::Arithmetic => number.ashr(amount).bits(),
    }
}

/// The places that a shift fills with zeros, whatever it shifts.
fn zeros_from_outside<const W: u32>(shift: Shift, amount: u32) -> u128
    requires width { IsWidth W }
    requires below { amount < W }
    ensures { result ≡ zeros_from_outside shift W amount }
{
    let most = most::<W>();
    match shift {
        Shift::Left => (1 << amount) - 1,
        Shift::Logical => most - (most >> amount),
        Shift::Arithmetic => 0,
    }
}

#[cfg(test)]
mod tests {
    use crate::known::Known;
    use std::test::Fail;

    const LEAST: u128 = 1 << 127;

    #[test]
    fn left_over_two_amounts(rt: HostRuntime) -> Result<(), Fail> {
        let shifted = Known::<4>::new(12, 1).ok_or("apart")?.shl(6);
        assert_eq!(rt; shifted.zeros(), 1);
        assert_eq!(rt; shifted.ones(), 0);
        Ok(())
    }

    #[test]
    fn logical_over_two_amounts(rt: HostRuntime) -> Result<(), Fail> {
        let shifted = Known::<8>::new(0x70, 0x80).ok_or("apart")?.lshr(6);
        assert_eq!(rt; shifted.zeros(), 0x98);
        assert_eq!(rt; shifted.ones(), 0);
        let highest = Known::<128>::new(0, LEAST).ok_or("apart")?.lshr(LEAST);
        assert_eq!(rt; highest.zeros(), u128::MAX - 1);
        assert_eq!(rt; highest.ones(), 1);
        Ok(())
    }

    #[test]
    fn arithmetic_copies_what_is_known_of_the_sign(rt: HostRuntime) -> Result<(), Fail> {
        let one = Known::<8>::new(0x7f, 0x80).ok_or("apart")?;
        assert_eq!(rt; one.ashr(0x80).ones(), 255);
        assert_eq!(rt; one.ashr(0x81).ones(), 0x80);
        assert_eq!(rt; one.ashr(0x81).zeros(), 0);
        let unknown = Known::<127>::new(0, 0).ok_or("apart")?.ashr(2);
        assert_eq!(rt; unknown.zeros(), 0);
        assert_eq!(rt; unknown.ones(), 0);
        Ok(())
    }

    #[test]
    fn over_runs_of_amounts(rt: HostRuntime) -> Result<(), Fail> {
        let one = Known::<8>::new(0xfe, 1).ok_or("apart")?.shl(0b110111);
        assert_eq!(rt; one.zeros(), 0b11001000);
        assert_eq!(rt; one.ones(), 0);
        let any = Known::<128>::new(u128::MAX - 1, 1).ok_or("apart")?;
        assert_eq!(rt; any.shl(u128::MAX).zeros(), 0);
        assert_eq!(rt; any.lshr(u128::MAX).zeros(), u128::MAX - 1);
        let zero = Known::<128>::new(u128::MAX, 0).ok_or("apart")?;
        assert_eq!(rt; zero.shl(u128::MAX).zeros(), u128::MAX);
        Ok(())
    }

    #[test]
    fn by_none_at_the_least_width(rt: HostRuntime) -> Result<(), Fail> {
        assert_eq!(rt; Known::<1>::new(0, 1).ok_or("apart")?.ashr(1).ones(), 1);
        assert_eq!(rt; Known::<64>::new(1, 2).ok_or("apart")?.shl(1).ones(), 2);
        Ok(())
    }
}
