ghost use Rattle.std.specs.Prelude.{◌≡◌, ◌≤◌, ◌<◌, ◌++◌, IfOk, OnOk, string_bytes};
ghost use Rattle.dps_gen.specs.Generated.{generated_text, step_line, step_lines, outputs, side_text, query_line};

use std::alloc::{AllocError, Global};
use std::fmt::Write;

/// The allocator has no memory left.
pub type NoMemory = AllocError;

/// The file of a number. Eight numbers in a row have one length of the chains of inputs, from 1 on; the remainder is the
/// length of the chains of outputs. Up to 87 both sides are small enough to be checked.
pub fn text(alloc: Global, number: u32) -> Result<String, NoMemory>
    requires { number ≤ 87 }
    ensures { IfOk result (λ text. string_bytes text ≡ generated_text number) }
{
    let depth = number / 8 + 1;
    let mut text = String::from_str(alloc, "free a, b.\nconst s, t.\nlet K0 = out(a,s).\n")?;
    write_steps(&mut text, "K", depth - 1)?;
    text.push_str("let A0 = out(a,s).\n")?;
    write_steps(&mut text, "A", depth)?;
    text.push_str("let B0 = out(a,t).\n")?;
    write_steps(&mut text, "B", depth)?;
    write_query(&mut text, depth, number % 8)?;
    Ok(text)
}

/// Writes the processes by this name with the numbers 1 to `count`.
fn write_steps(text: &mut String, name: &str, count: u32) -> Result<(), NoMemory>
    requires { count ≤ 87 }
    ensures { OnOk result (string_bytes text.new ≡ string_bytes text.old ++ step_lines name.now count) }
{
    for last in 0..count {
        write_step(text, name, last)?;
    }
    Ok(())
}

/// Writes the process by this name with the number behind `last`.
fn write_step(text: &mut String, name: &str, last: u32) -> Result<(), NoMemory>
    requires { last < 87 }
    ensures { OnOk result (string_bytes text.new ≡ string_bytes text.old ++ step_line name.now last) }
{
    let number = last + 1;
    write!(
        text,
        "let {name}{number} = in(a,x); if x = s then K{last} else {name}{last}.\n"
    )
}

/// Writes so many outputs of `s` on `b`, one after another.
fn write_outputs(text: &mut String, count: u32) -> Result<(), NoMemory>
    ensures { OnOk result (string_bytes text.new ≡ string_bytes text.old ++ outputs count) }
{
    for _ in 0..count {
        text.push_str("out(b,s); ")?;
    }
    Ok(())
}

/// Writes one side: the chain of inputs by this name, or so many outputs and one of the last constant.
fn write_side(
    text: &mut String,
    name: &str,
    last: &str,
    depth: u32,
    width: u32,
) -> Result<(), NoMemory>
    ensures { OnOk result (string_bytes text.new ≡ string_bytes text.old ++ side_text name.now last.now depth width) }
{
    write!(text, "out(a,s); {name}{depth} + ")?;
    write_outputs(text, width)?;
    write!(text, "out(b,{last})")?;
    Ok(())
}

/// Writes the query of both sides.
fn write_query(text: &mut String, depth: u32, width: u32) -> Result<(), NoMemory>
    ensures { OnOk result (string_bytes text.new ≡ string_bytes text.old ++ query_line depth width) }
{
    text.push_str("query trace_equiv(")?;
    write_side(text, "A", "s", depth, width)?;
    text.push_str(", ")?;
    write_side(text, "B", "t", depth, width)?;
    text.push_str(").\n")?;
    Ok(())
}
