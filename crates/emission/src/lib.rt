// Emission: the operations of an expression as text, left side, right side, operator. A name is written out by writing out its binding's
// expression; what a binding wrote once is copied from the output.
#![tactic(auto)]

ghost use Rattle.std.specs.Prelude.{◌+◌, ◌-◌, ◌<◌, ◌≤◌, length};
ghost use Rattle.std.proofs.Math.Seq.{slice};
ghost use Rattle.grammar.specs.Code.Texts.{text_of};
ghost use Rattle.writer.specs.Code.Overwrites.{Overwrites};
ghost use Rattle.bindings.specs.Code.Source.{sources};
ghost use Rattle.emission.specs.Code.Emitted.{tree_between, MeansTree, known_tree, binding_tree, KnownMeans, KnownStand, Keeps, Before};

mod operator;
mod waiting;

use base::{Span, copy};
use bindings::names::Known;
use bindings::{Bindings, Values};
use expression::factors::{Factor, factor_at};
use expression::parts::Level;
use operator::operate;
use waiting::none_waiting;
use writer::put_push;

// Writes, at an offset of the output, the expression in a span of the text, where there is room for it, and returns the offset
// behind it. Its names mean the first count bindings. Assembly calls it with the last return of a contract that it accepts, whose
// expressions were all parsed, and only where the output's length, added up in parsing, fits (26).
pub fn emit(
    text: &[u8],
    table: Bindings,
    values: Values,
    count: usize,
    expr: Span,
    out: &mut [u8],
    at: usize,
) -> usize
    requires means_tree { MeansTree text.now (sources table values) count expr.start expr.end }
    requires end_in_bounds { at + length (text_of (tree_between text.now (sources table values) count expr.start expr.end))
        ≤ length out.old }
    ensures { Overwrites out.old at (text_of (tree_between text.now (sources table values) count expr.start expr.end))
        out.new result }
{
    let known = Known {
        text,
        table: &table,
        values: &values,
        count,
    };
    // Where what a binding wrote stands in the output, for each that there may be: memory is fixed.
    let mut pieces = [None; 256];
    expression(known, expr, out, at, &mut pieces)
}

// Parentheses are no recursion: the operators wait on one flat stack.
#[cycle(binding_expression)]
fn expression(
    known: Known,
    expr: Span,
    out: &mut [u8],
    at: usize,
    pieces: &mut [Option<Span>; 256],
) -> usize
    requires means_tree { KnownMeans known expr }
    requires end_in_bounds { at + length (text_of (known_tree known expr)) ≤ length out.old }
    requires keeps { Keeps known out.old at pieces.old }
    ensures wrote { Overwrites out.old at (text_of (known_tree known.entry expr)) out.new result }
    ensures keeps { Keeps known.entry out.new result pieces.new }
{
    let text = &known.text[..expr.end];
    let mut waiting = none_waiting();
    let mut due = true;
    let mut i = expr.start;
    let mut to = at;
    // A turn passes a token, and the next factor or operator says where it ends: no iterator is plainer.
    while i < expr.end {
        if due {
            let Ok(next) = factor_at(known, text, i) else {
                return to;
            };
            i = next.end;
            match next.factor {
                Factor::Open => waiting.push(None),
                Factor::Literal(value) => {
                    to = put_push(out, to, value);
                    due = false;
                }
                Factor::Name(b) => {
                    to = binding(known, b, out, to, pieces);
                    due = false;
                }
            }
        } else {
            let next = operate(text, i, out, to, &mut waiting);
            i = next.at;
            to = next.to;
            due = next.due;
        }
    }
    waiting.write(out, to, Level::Comparison)
}

// The binding b: once more, where it was written before; a parameter; or its expression, whose names mean the bindings before it.
#[cycle(binding_expression)]
fn binding(
    known: Known,
    b: usize,
    out: &mut [u8],
    at: usize,
    pieces: &mut [Option<Span>; 256],
) -> usize
    requires stand { (b < 256) × KnownStand known (b + 1) }
    requires b_in_bounds { at + length (text_of (binding_tree known b)) ≤ length out.old }
    requires keeps { Keeps known out.old at pieces.old }
    ensures wrote { Overwrites out.old at (text_of (binding_tree known.entry b)) out.new result }
    ensures keeps { Keeps known.entry out.new result pieces.new }
{
    if let Some(piece) = pieces[b] {
        return put_again(out, at, piece);
    }
    let size = usize::from(known.table.expr_len[b]);
    if size == 0 {
        return put_push(out, at, known.values.value[b]);
    }
    let start = usize::from(known.table.expr_start[b]);
    let expr = Span {
        start,
        end: start + size,
    };
    let end = expression(Known { count: b, ..known }, expr, out, at, pieces);
    pieces[b] = Some(Span { start: at, end });
    end
}

// A piece of the output that stands before an offset, once more at that offset. `copy_within` took 1.8 of the time where bindings are
// doubled: it copies byte by byte.
fn put_again(out: &mut [u8], at: usize, piece: Span) -> usize
    requires { Before piece at × (at + (piece.end - piece.start) ≤ length out.old) }
    ensures { Overwrites out.old at (slice piece.start piece.end out.old) out.new result }
{
    let len = piece.end - piece.start;
    let (before, behind) = out.split_at_mut(at);
    copy(&mut behind[..len], &before[piece.start..piece.end]);
    at + len
}
