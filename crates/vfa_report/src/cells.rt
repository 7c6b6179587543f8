//! The line of a cell.

ghost use Rattle.std.specs.Prelude.{◌≡◌, ◌+◌, ◌-◌, ◌%◌, ◌^◌, ◌<◌, ◌++◌, ℕ, List, codes, decimal, IfOk, OnOk};
ghost use Rattle.vfa_word.specs.Numbers.{IsWidth};
ghost use Rattle.vfa_fact.specs.Cells.{IsCell};
ghost use Rattle.vfa_report.specs.FactLines.{bit_letter as letter_of_bit, bits_text, range_text, mark_text, known_text, cell_line};

use std::alloc::{AllocError, Global};
use vfa_fact::{Cell, Numbers};
use vfa_ir::push_decimal;

/// `0` or `1` where the bit at this place is known, else `?`.
fn bit_letter(numbers: &Numbers, place: u32) -> u8
    requires { place < 128 }
    ensures { result ≡ letter_of_bit numbers.now place }
{
    if (numbers.zeros >> place) & 1 == 1 {
        return b'0';
    }
    if (numbers.ones >> place) & 1 == 1 {
        return b'1';
    }
    b'?'
}

/// Puts the bits, from the top, last in a text.
fn push_bits(text: &mut Vec<u8>, width: u32, numbers: &Numbers) -> Result<(), AllocError>
    requires { IsWidth width }
    ensures { IfOk result (λ _. text.new.items ≡ text.old.items ++ bits_text numbers.now width) }
{
    'places: for above in 0..width {
        text.push(bit_letter(numbers, width - 1 - above))?;
    }
    Ok(())
}

/// The greatest number of the width.
fn most_of(width: u32) -> u128
    requires { IsWidth width }
    ensures { result ≡ 2 ^ width - 1 }
{
    u128::MAX >> (128 - width)
}

/// The number that follows, which is 0 after the greatest one.
fn next_number(width: u32, number: u128) -> u128
    requires width { IsWidth width }
    requires fits { number < 2 ^ width }
    ensures { result ≡ (number + 1) % 2 ^ width }
{
    if number == most_of(width) {
        return 0;
    }
    number + 1
}

/// Puts the range last in a text.
fn push_range(
    alloc: Global,
    text: &mut Vec<u8>,
    width: u32,
    numbers: &Numbers,
) -> Result<(), AllocError>
    requires width { IsWidth width }
    requires last { numbers.now.last < 2 ^ width }
    ensures { IfOk result (λ _. text.new.items ≡ text.old.items ++ range_text width numbers.now) }
{
    if numbers.first == 0 && numbers.last == most_of(width) {
        return text.extend_from_slice(b"full");
    }
    text.push(b'[')?;
    push_decimal(alloc, text, numbers.first)?;
    text.push(b',')?;
    push_decimal(alloc, text, next_number(width, numbers.last))?;
    text.push(b')')?;
    Ok(())
}

/// Puts what is said of poison last in a text.
fn push_mark(text: &mut Vec<u8>, cell: &Cell) -> Result<(), AllocError>
    ensures { IfOk result (λ _. text.new.items ≡ text.old.items ++ mark_text cell.now) }
{
    if cell.never_poison {
        return text.extend_from_slice(b"never-poison");
    }
    text.extend_from_slice(b"maybe-poison")
}

/// Puts the bits and the range last in a text, with a blank behind each.
fn push_numbers(
    alloc: Global,
    text: &mut Vec<u8>,
    width: u32,
    numbers: &Numbers,
) -> Result<(), AllocError>
    requires width { IsWidth width }
    requires last { numbers.now.last < 2 ^ width }
    ensures { IfOk result (λ _. text.new.items ≡ text.old.items
        ++ (bits_text numbers.now width ++ (codes " " ++ (range_text width numbers.now ++ codes " ")))) }
{
    push_bits(text, width, numbers)?;
    text.push(b' ')?;
    push_range(alloc, text, width, numbers)?;
    text.push(b' ')?;
    Ok(())
}

/// Puts what is known of a cell last in a text.
fn push_known(alloc: Global, text: &mut Vec<u8>, cell: &Cell) -> Result<(), AllocError>
    ensures { IfOk result (λ _. text.new.items ≡ text.old.items ++ known_text cell.now cell.now.numbers) }
{
    let Some(numbers) = &cell.numbers else {
        text.extend_from_slice(b"only-poison")?;
        return Ok(());
    };
    push_numbers(alloc, text, cell.width, numbers)?;
    push_mark(text, cell)?;
    Ok(())
}

/// Puts the rest of a cell's line last in a text, behind what it is shown by.
pub fn push_cell(alloc: Global, text: &mut Vec<u8>, cell: &Cell) -> Result<(), AllocError>
    ensures line { (before shown : List ℕ) → text.old.items ≡ before ++ shown →
        IfOk result (λ _. text.new.items ≡ before ++ cell_line shown cell.now) }
    ensures cell { OnOk result (IsCell cell.now) }
{
    text.extend_from_slice(b" i")?;
    push_decimal(alloc, text, u128::from(cell.width))?;
    text.push(b' ')?;
    push_known(alloc, text, cell)?;
    Ok(())
}
