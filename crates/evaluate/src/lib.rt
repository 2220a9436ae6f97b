// The state of a table's tags at an instant: `evaluate_at` of the Rust, by value and as the 92 words of the C interface.
#![tactic(auto)]

ghost use Rattle.std.specs.Prelude.{◌≡◌};
ghost use Rattle.evaluate.specs.Inner.{AppliedAll};
ghost use Rattle.evaluate.specs.Evaluate.{evaluated, StateStands, opacity_of, Opacity, InWords};

use refusal::Refusal;
use state::RenderState;

// All records, from `identity` on.
// For the compiler (MEASURED, Shapes for the compiler): the times are lent.
fn apply_all(
    table: &[u32],
    t: &i32,
    dur: &i32,
    write: bool,
    fault: &mut Option<usize>,
    out: &mut [u32; 92],
) -> RenderState
    ensures { AppliedAll t.now dur.now table.now write out.old result fault.new out.new }
{
    let end = (table.len() / 8).min(1024);
    *fault = None;
    // For the compiler (MEASURED, Shapes for the compiler): the state comes back to where it was given from, in one local.
    let mut st = state::identity();
    st = evaluators::apply_tags(table, 0, end, 16, st, t, dur, write, fault, out);
    st
}

// 01, Evaluation: the state at t of the tags that the table stands for, in a line of dur milliseconds.
pub fn evaluate_at(table: &[u32], t: i32, dur: i32) -> Result<RenderState, Refusal>
    ensures value { result ≡ evaluated table.now t dur }
    ensures state_stands { StateStands table.now t dur result }
    ensures opacity { Opacity table.now (opacity_of result) }
{
    let mut fault = None;
    let mut unwritten = [0; 92];
    let st = apply_all(table, &t, &dur, false, &mut fault, &mut unwritten);
    if let Some(at) = fault {
        return Err(Refusal::TableMalformed(at));
    }
    table::after_records(table, t, dur)?;
    Ok(st)
}

// The same as a ground and the 92 words of the C interface. What is left of the grounds is looked for first, so that the words are written
// where nothing stands against them.
pub fn write_at(table: &[u32], t: i32, dur: i32, state: &mut [u32; 92]) -> Result<(), Refusal>
    ensures { InWords table.now t dur state.old result state.new }
{
    let late = table::after_records(table, t, dur);
    let mut fault = None;
    apply_all(table, &t, &dur, late.is_ok(), &mut fault, state);
    match fault {
        Some(at) => Err(Refusal::TableMalformed(at)),
        None => late,
    }
}
