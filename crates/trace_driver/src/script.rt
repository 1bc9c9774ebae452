//! What an input asks to play: the areas that it begins with, and its lines. The refusals of an input come in the
//! order of its lines, and the limit on the rows of the opening areas comes last; this order is this project's own
//! profile. A reader may rely on the first line that ends the run being the one that is named.
ghost use Rattle.std.specs.Prelude.{◌≤◌, length, All, IfOk, IfErr};
ghost use Rattle.trace_driver.specs.declared.trace.TheConstants.{LINES_LIMIT};
ghost use Rattle.trace_driver.specs.Script.{IsScriptOf, IsReadScript};
ghost use Rattle.trace_driver.specs.Endings.{EndsInput, EndsEarly};
ghost use Rattle.trace_driver.specs.Status.{OrMemory};
ghost use Rattle.trace_driver.specs.declared.input.TheConstants.{INPUT_LIMIT};
ghost use Rattle.trace_driver.specs.TraceReader.{IsNamedLine};

use crate::input::read_input;
use crate::opening::read_opening;
use crate::status::{EarlyEnd, Which};
use crate::trace::{Line, read_lines};
use byte_ports::Source;
use command_words::Options;
use page_types::ROWS;
use space_model::PlainSpace;
use std::alloc::Global;

/// What an input asks to play.
#[derive(Debug, Drop)]
pub struct Script {
    /// The address space before the first call.
    pub opening: PlainSpace,
    /// The lines that are played, in the input's order.
    pub lines: Vec<Line>,
    /// How many lines were passed over, opening lines past the user addresses among them.
    pub skipped: u32,
}

/// Reads the whole input, and what it asks to play.
///
/// `Err`: the run ends so.
pub fn read_script<S: Source>(
    alloc: Global,
    options: Options,
    input: &mut S,
) -> Result<Script, EarlyEnd>
    ensures read { IfOk result (IsReadScript options (S.remaining input.old) (S.remaining input.new)) }
    ensures named { IfOk result (λ script. All IsNamedLine script.lines.items) }
    ensures few { IfOk result (λ script. length script.lines.items ≤ LINES_LIMIT) }
    ensures stopped { IfErr result (OrMemory (EndsEarly options (S.remaining input.old) (S.remaining input.new)
        (S.fault_count input.old) (S.fault_count input.new))) }
{
    let bytes = read_input(alloc, input)?;
    script_of(alloc, options, &bytes)
}

/// What the bytes of an input ask to play.
///
/// `Err`: the run ends so.
fn script_of(alloc: Global, options: Options, bytes: &[u8]) -> Result<Script, EarlyEnd>
    requires { length bytes.now ≤ INPUT_LIMIT }
    ensures script { IfOk result (IsScriptOf options bytes.now) }
    ensures named { IfOk result (λ script. All IsNamedLine script.lines.items) }
    ensures few { IfOk result (λ script. length script.lines.items ≤ LINES_LIMIT) }
    ensures stopped { IfErr result (OrMemory (EndsInput options bytes.now)) }
{
    let (opening, rest) = read_opening(alloc, bytes, options.opening)?;
    let trace = read_lines(alloc, rest, opening.next)?;
    let Ok(space) = PlainSpace::of_pieces(alloc, &opening.areas) else {
        return Err(EarlyEnd::NoMemory);
    };
    let rows = space.rows();
    if rows as usize > ROWS {
        return Err(EarlyEnd::Above {
            which: Which::Rows,
            value: rows as u64,
        });
    }
    Ok(Script {
        opening: space,
        lines: trace.lines,
        skipped: opening.past + trace.skipped,
    })
}
