//! Generated functions.

ghost use Rattle.std.specs.Prelude.{◌≡◌, ◌<◌, ◌≤◌, ◌++◌, codes, OnOk};
ghost use Rattle.vfa_opt.specs.Generated.{next_state, state_after, drawn, result_name};
ghost use Rattle.vfa_opt.specs.GeneratedLines.{lines_bytes, parameters_bytes, header_bytes, comparison_bytes, returning_bytes, function_bytes};

use crate::generator::draws::Draws;
use crate::generator::lines::{push_drawn_literal, push_line, push_result, push_type};
use std::alloc::{AllocError, Global};
use vfa_ir::push_decimal;

/// The greatest width.
const MOST_WIDTH: u32 = 128;

/// The binary operations of a function.
const LINES: u32 = 40;

/// Puts the parameters last, and the brace before the blocks.
fn push_parameters(alloc: Global, text: &mut Vec<u8>, width: u32) -> Result<(), AllocError>
    ensures { OnOk result (text.new.items ≡ text.old.items ++ parameters_bytes width) }
{
    text.push(b'(')?;
    push_type(alloc, text, width)?;
    text.extend_from_slice(b" %a, ")?;
    push_type(alloc, text, width)?;
    text.extend_from_slice(b" noundef %b) {\n")?;
    Ok(())
}

/// Puts the line before the first block last.
fn push_header(alloc: Global, text: &mut Vec<u8>, width: u32, number: u32) -> Result<(), AllocError>
    ensures { OnOk result (text.new.items ≡ text.old.items ++ header_bytes width number) }
{
    text.extend_from_slice(b"define ")?;
    push_type(alloc, text, width)?;
    text.extend_from_slice(b" @g")?;
    push_decimal(alloc, text, u128::from(number))?;
    push_parameters(alloc, text, width)?;
    Ok(())
}

/// Puts the lines of a function last.
fn push_lines(
    alloc: Global,
    draws: &mut Draws,
    text: &mut Vec<u8>,
    width: u32,
) -> Result<(), AllocError>
    requires { 1 ≤ width }
    ensures text { OnOk result (text.new.items ≡ text.old.items ++ lines_bytes width 40 draws.old.state) }
    ensures state { OnOk result (draws.new.state ≡ state_after 160 draws.old.state) }
{
    'lines: for place in 0..LINES {
        push_line(alloc, draws, text, width, place)?;
    }
    Ok(())
}

/// Puts the result of a line that is drawn last.
fn push_drawn_result(alloc: Global, draws: &mut Draws, text: &mut Vec<u8>) -> Result<(), AllocError>
    ensures text { OnOk result (text.new.items ≡ text.old.items ++ (codes "%" ++ result_name (drawn draws.old.state 40))) }
    ensures state { OnOk result (draws.new.state ≡ next_state draws.old.state) }
{
    let place = draws.draw(LINES);
    push_result(alloc, text, place)
}

/// Puts the comparison and the branch on it last.
fn push_comparison(
    alloc: Global,
    draws: &mut Draws,
    text: &mut Vec<u8>,
    width: u32,
) -> Result<(), AllocError>
    requires { 1 ≤ width }
    ensures text { OnOk result (text.new.items ≡ text.old.items ++ comparison_bytes width draws.old.state) }
    ensures state { OnOk result (draws.new.state ≡ next_state (next_state draws.old.state)) }
{
    text.extend_from_slice(b"  %c = icmp ult ")?;
    push_type(alloc, text, width)?;
    text.push(b' ')?;
    push_drawn_result(alloc, draws, text)?;
    text.extend_from_slice(b", ")?;
    push_drawn_literal(alloc, draws, text, width)?;
    text.extend_from_slice(b"\n  br i1 %c, label %t, label %e\n")?;
    Ok(())
}

/// Puts a block last that returns the result of a line that is drawn.
fn push_returning(
    alloc: Global,
    draws: &mut Draws,
    text: &mut Vec<u8>,
    label: &[u8],
    width: u32,
) -> Result<(), AllocError>
    ensures text { OnOk result (text.new.items ≡ text.old.items ++ returning_bytes label.now width draws.old.state) }
    ensures state { OnOk result (draws.new.state ≡ next_state draws.old.state) }
{
    text.push(b'\n')?;
    text.extend_from_slice(label)?;
    text.extend_from_slice(b":\n  ret ")?;
    push_type(alloc, text, width)?;
    text.push(b' ')?;
    push_drawn_result(alloc, draws, text)?;
    text.push(b'\n')?;
    Ok(())
}

/// Puts function `number` last.
pub fn push_function(
    alloc: Global,
    draws: &mut Draws,
    text: &mut Vec<u8>,
    number: u32,
) -> Result<(), AllocError>
    ensures text { OnOk result (text.new.items ≡ text.old.items ++ function_bytes number draws.old.state) }
    ensures state { OnOk result (draws.new.state ≡ state_after 165 draws.old.state) }
{
    let width = 1 + draws.draw(MOST_WIDTH);
    push_header(alloc, text, width, number)?;
    text.extend_from_slice(b"entry:\n")?;
    push_lines(alloc, draws, text, width)?;
    push_comparison(alloc, draws, text, width)?;
    push_returning(alloc, draws, text, b"t", width)?;
    push_returning(alloc, draws, text, b"e", width)?;
    text.push(b'}')?;
    Ok(())
}
