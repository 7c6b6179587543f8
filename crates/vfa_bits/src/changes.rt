//! The names whose values may change in bits that are not asked for.

ghost use Rattle.std.specs.Prelude.{◌≡◌, ◌<◌, ◌≤◌, ◌&&◌, ◌++◌, ◌^◌, ◌∷◌, ℕ, [], IfOk, filter, flat_map, length, replicate};
ghost use Rattle.std.specs.List.{range_with_len};
ghost use Rattle.vfa_bits.specs.Changed as changed;
ghost use Rattle.vfa_bits.specs.Changed.{AreChanged, name_type};
ghost use Rattle.vfa_bits.specs.Choosing.{is_changed_in};
ghost use Rattle.vfa_bits.specs.Tables.{AreReplacements};
ghost use Rattle.vfa_bits.specs.Users as users;
ghost use Rattle.vfa_bits.specs.Users.{changes_replaced, changes_with, first_changed, sign_of, signs_of, user_among, users_below};
ghost use Rattle.vfa_check.specs.Checked.{IsChecked};
ghost use Rattle.vfa_demand.specs.Behind.{ArePut};
ghost use Rattle.vfa_demand.specs.Masks.{AreMasks, mask_in, number_width};
ghost use Rattle.vfa_word.specs.Numbers.{IsWidth};

use crate::lines::has_unseen_sign;
use crate::operands::mask_of;
use std::alloc::{AllocError, Global};
use vfa_demand::{all_bits, led_to, names_behind, number_width};
use vfa_ir::{Block, Function, Inst, Items, Op, Operand, Ty, ValueId};
use vfa_print::fit_is_printable;

/// The type of a value; of one that the function does not have it is `i1`.
fn name_type(f: &Function, value: ValueId) -> Ty
    ensures { result ≡ changed.name_type f.now value.0 }
{
    match f.values.as_slice().get(value.0 as usize) {
        Some(value) => value.ty,
        None => Ty::Int(1),
    }
}

fn is_number(ty: Ty) -> bool
    ensures { result ≡ changed.is_number ty }
{
    match ty {
        Ty::Int(_) => true,
        Ty::Pair(_) => false,
    }
}

/// No users yet, for so many values.
fn no_users(alloc: Global, values: usize) -> Result<Vec<Items<u32>>, AllocError>
    ensures { IfOk result (λ users. users.items ≡ replicate values []) }
{
    let mut users: Vec<Items<u32>> = Vec::with_capacity(alloc, values)?;
    'rows: for _ in 0..values {
        users.push(Items(Vec::new(alloc)))?;
    }
    Ok(users)
}

/// Puts a user to those of a name.
fn put_user(users: &mut Vec<Items<u32>>, name: u32, user: u32) -> Result<(), AllocError>
    ensures { IfOk result (λ _. ArePut (user_among user (name ∷ [])) users.old.items users.new.items) }
{
    let place = name as usize;
    if place >= users.len() {
        return Ok(());
    }
    let list = &mut users[place];
    list.0.push(user)?;
    Ok(())
}

/// Puts a user to those of some names.
fn put_users(users: &mut Vec<Items<u32>>, names: &[u32], user: u32) -> Result<(), AllocError>
    ensures { IfOk result (λ _. ArePut (user_among user names.now) users.old.items users.new.items) }
{
    'each: for name in names {
        put_user(users, *name, user)?;
    }
    Ok(())
}

/// A function, the masks of its values, and the operands that their names are replaced by.
#[derive(Clone, Copy)]
pub(crate) struct Masked<'a> {
    pub(crate) f: &'a Function,
    pub(crate) masks: &'a [u128],
    pub(crate) replacements: &'a [Option<Operand>],
    pub(crate) ghost widths: { (v : ℕ) → IsWidth (number_width (name_type f.now v)) },
    pub(crate) ghost few: { length f.now.values ≤ 2 ^ 28 },
    pub(crate) ghost are: { AreReplacements f.now (mask_in masks.now) replacements.now },
}

impl<'a> Masked<'a> {
    /// Whether some bit of a value is not asked for.
    fn is_short(&self, value: ValueId) -> bool
        ensures { result ≡ changed.is_short self.now.f.now (mask_in self.now.masks.now) value.0 }
    {
        let all = all_bits(number_width(name_type(self.f, value)));
        mask_of(self.masks, value) & all != all
    }

    /// Whether a name stands for another operand at its uses.
    fn is_replaced(&self, value: ValueId) -> bool
        ensures { result ≡ changed.is_replaced self.now.f.now (mask_in self.now.masks.now) value.0 }
    {
        if mask_of(self.masks, value) == 0 && is_number(name_type(self.f, value)) {
            return true;
        }
        self.replacements
            .get(value.0 as usize)
            .copied()
            .unwrap_or(None)
            .is_some()
    }

    /// Whether a name may change by that.
    fn changes_replaced(&self, value: ValueId) -> bool
        ensures { result ≡ users.changes_replaced self.now.f.now (mask_in self.now.masks.now) value.0 }
    {
        if !self.is_short(value) {
            return false;
        }
        self.is_replaced(value)
    }

    /// A name behind others, if it may change by that.
    fn push_replaced(&self, first: &mut Vec<u32>, value: u32) -> Result<(), AllocError>
        ensures { IfOk result (λ _.
            first.new.items ≡ first.old.items ++ filter (changes_replaced self.now.f.now (mask_in self.now.masks.now)) (value ∷ [])) }
    {
        if self.changes_replaced(ValueId(value)) {
            first.push(value)?;
        }
        Ok(())
    }

    /// The names that may change since they stand for other operands.
    fn all_replaced(&self, alloc: Global) -> Result<Vec<u32>, AllocError>
        ensures { IfOk result (λ first. first.items ≡
            filter (changes_replaced self.now.f.now (mask_in self.now.masks.now)) (range_with_len 0 (length self.now.f.now.values))) }
    {
        let mut first: Vec<u32> = Vec::new(alloc);
        'each: for number in 0..self.f.values.as_slice().len() {
            self.push_replaced(&mut first, number as u32)?;
        }
        Ok(first)
    }

    /// Whether a value may change since its `sext` becomes a `zext`.
    fn changes_sign(&self, op: &Op, value: ValueId) -> bool
        ensures { result ≡ (changed.is_short self.now.f.now (mask_in self.now.masks.now) value.0
            && changed.has_unseen_sign op.now (mask_in self.now.masks.now value.0)) }
    {
        if !self.is_short(value) {
            return false;
        }
        has_unseen_sign(op, mask_of(self.masks, value))
    }

    /// The result of a line behind others, if it may change by that.
    fn push_sign(&self, first: &mut Vec<u32>, inst: &Inst) -> Result<(), AllocError>
        ensures { IfOk result (λ _.
            first.new.items ≡ first.old.items ++ sign_of self.now.f.now (mask_in self.now.masks.now) inst.now) }
    {
        let Some(value) = inst.result else {
            return Ok(());
        };
        if self.changes_sign(&inst.op, value) {
            first.push(value.0)?;
        }
        Ok(())
    }

    /// The results of lines behind others, of those that may change by that.
    fn push_signs(&self, first: &mut Vec<u32>, insts: &[Inst]) -> Result<(), AllocError>
        ensures { IfOk result (λ _.
            first.new.items ≡ first.old.items ++ flat_map (sign_of self.now.f.now (mask_in self.now.masks.now)) insts.now) }
    {
        'each: for inst in insts {
            self.push_sign(first, inst)?;
        }
        Ok(())
    }

    /// The results of blocks behind others, of those that may change by that.
    fn push_all_signs(&self, first: &mut Vec<u32>, blocks: &[Block]) -> Result<(), AllocError>
        ensures { IfOk result (λ _.
            first.new.items ≡ first.old.items ++ flat_map (signs_of self.now.f.now (mask_in self.now.masks.now)) blocks.now) }
    {
        'each: for block in blocks {
            self.push_signs(first, block.insts.as_slice())?;
        }
        Ok(())
    }

    /// The values that change of themselves.
    fn first_changed(&self, alloc: Global) -> Result<Vec<u32>, AllocError>
        ensures { IfOk result (λ first. first.items ≡ first_changed self.now.f.now (mask_in self.now.masks.now)) }
    {
        let mut first = self.all_replaced(alloc)?;
        self.push_all_signs(&mut first, self.f.blocks.as_slice())?;
        Ok(first)
    }

    /// Puts a value to the users of the names behind it, if it may change with these.
    fn put_short(
        &self,
        users: &mut Vec<Items<u32>>,
        behind: &[Items<u32>],
        value: u32,
    ) -> Result<(), AllocError>
        requires { value < length behind.now }
        ensures { IfOk result (λ _.
            ArePut (λ x. changes_with self.now.f.now (mask_in self.now.masks.now) behind.now x value) users.old.items users.new.items) }
    {
        if self.is_short(ValueId(value)) {
            return put_users(users, behind[value as usize].as_slice(), value);
        }
        Ok(())
    }

    /// For each value those that may change with it, by the names behind each.
    fn users(&self, alloc: Global, behind: &[Items<u32>]) -> Result<Vec<Items<u32>>, AllocError>
        requires { length behind.now ≡ length self.now.f.now.values }
        ensures { IfOk result (λ users.
            ArePut (users_below self.now.f.now (mask_in self.now.masks.now) behind.now (length behind.now))
            (replicate (length behind.now) []) users.items) }
    {
        let mut users = no_users(alloc, behind.len())?;
        'each: for number in 0..behind.len() {
            self.put_short(&mut users, behind, number as u32)?;
        }
        Ok(users)
    }

    /// Marks of the names that may change: those that stand for other operands or lose a sign, and those whose definitions
    /// use such ones, each where some bit of it is not asked for.
    pub(crate) fn changed(&self, alloc: Global) -> Result<Vec<bool>, AllocError>
        requires checked { IsChecked self.now.f.now }
        requires masks { AreMasks self.now.f.now (mask_in self.now.masks.now) }
        ensures { IfOk result (λ marks. AreChanged self.now.f.now (mask_in self.now.masks.now) (is_changed_in marks.items)) }
    {
        fit_is_printable();
        let behind = names_behind(alloc, self.f)?;
        let users = self.users(alloc, behind.as_slice())?;
        let first = self.first_changed(alloc)?;
        led_to(alloc, first.as_slice(), users.as_slice())
    }
}
