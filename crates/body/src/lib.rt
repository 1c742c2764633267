// The body of a function, line by line.
// Offsets stay beside the slice, since the contracts speak of places in the whole text.
#![tactic(auto)]

mod statement;

ghost use Rattle.std.specs.Prelude.{take};
ghost use Rattle.lines.specs.Lines.{lines};
ghost use Rattle.bindings.specs.Code.Table.{columns};
ghost use Rattle.scope.specs.Part.{part};
ghost use Rattle.body.specs.Body.{line_read};
ghost use Rattle.scope.specs.Scope.{each};
ghost use Rattle.body.specs.Code.LastReturn.{MeetsLine, ReadToLast, ReadsBody};
ghost use Rattle.body.specs.Code.Checked.{ChecksAll};
ghost use Rattle.scope.specs.Code.Held.{Represented, SimulatesStep, SimulatesTo, Within};

use base::Span;
use bindings::{Bindings, Values};
use expression::parse;
use figures::Figures;
use lines::Lines;
use scope::refusal::AssembleError;
use scope::state::{Returned, TableState};
use statement::{StatementSpans, statement_at};

// An expression's k is at most this (20).
const MAX_K: u64 = 32768;

// The lines of a part of the contract. `read_function` calls it with the offsets that `find_function` found in a
// contract of at most 65,536 bytes, and with a state in which the parameters are bound.
pub fn read_body(
    contract: &[u8],
    body: Span,
    state: TableState,
) -> Result<TableState, AssembleError>
    requires { Within contract.now body.start body.end × Represented (take body.start contract.now) state }
    ensures { SimulatesTo (take body.start contract.now) state
        (λ st. each line_read 1 st (lines (part contract.now body.start body.end)))
        (take body.end contract.now) result
        × ReadsBody contract.now body.start body.end state result }
{
    let mut state = state;
    let lines = Lines {
        text: &contract[..body.end],
        at: body.start,
    };
    for (number, line) in (1..).zip(lines) {
        read_line(contract, line.text, number, &mut state)?;
    }
    Ok(state)
}

// What the line with a number says.
fn read_line(
    contract: &[u8],
    text: Span,
    line: usize,
    state: &mut TableState,
) -> Result<(), AssembleError>
    requires { Within contract.now text.start text.end
        × Represented (take text.start contract.now) state.old }
    ensures { SimulatesStep (take text.start contract.now) state.old
        (λ st. line_read line st (part contract.now text.start text.end))
        (take text.end contract.now) state.new result
        × MeetsLine contract.now text.start text.end state.old state.new result }
{
    match statement_at(contract, text) {
        StatementSpans::Skipped => Ok(()),
        StatementSpans::NoEquals => Err(AssembleError::NoEquals(line)),
        StatementSpans::Let(name, expr) => {
            let read = check(contract, expr, line, state.table, state.values)?;
            state.bind(contract, name, expr, read)
        }
        StatementSpans::Return(expr) => {
            let read = check(contract, expr, line, state.table, state.values)?;
            state.last = Some(Returned {
                expr,
                count: state.table.count,
                read,
            });
            Ok(())
        }
    }
}

// The expression of a line. Its names mean the bindings of the table, which is handed by value to no line without an expression.
fn check(
    contract: &[u8],
    expr: Span,
    line: usize,
    table: Bindings,
    values: Values,
) -> Result<Figures, AssembleError>
    requires { Within contract.now expr.start expr.end }
    ensures { ChecksAll (take expr.end contract.now) (columns table values) line
        (part contract.now expr.start expr.end) result
        × ReadToLast (take expr.end contract.now) result }
{
    let read = parse(&contract[..expr.end], expr.start, table, values).map_err(
        |e| AssembleError::Expression(e, line),
    )?;
    if MAX_K < read.k {
        return Err(AssembleError::TooLong(line));
    }
    Ok(read)
}
