// The state as it is stored: the first one, and the row of one more binding in the table.
ghost use Rattle.std.specs.Prelude.{◌≡◌, ◌≤◌, length};
ghost use Rattle.scope.specs.Part.{part};
ghost use Rattle.scope.specs.Code.Stored.{nothing_yet, FiguresFit, SpanFits, row_of};

use crate::state::TableState;
use base::Span;
use bindings::names::tag_of;
use bindings::{Bindings, Row, Values};
use figures::Figures;

pub fn started() -> TableState
    ensures { result ≡ nothing_yet }
{
    let table = Bindings {
        name_start: [0; 256],
        name_len: [0; 256],
        expr_start: [0; 256],
        expr_len: [0; 256],
        k: [0; 256],
        p: [0; 256],
        count: 0,
    };
    let values = Values {
        value: [0; 256],
        none: [false; 256],
        len: [0; 256],
        tag: [0; 256],
    };
    TableState {
        table,
        values,
        last: None,
    }
}

// What the arrays hold of one binding. Its places lie before a closing parenthesis or brace of a contract of at most 65,536 bytes (1), and
// its k is 1 or was tested to be 32,768 at most (20): so places and figures fit the arrays' types.
pub fn row_of(text: &[u8], name: Span, expr: Span, read: Figures) -> Row
    requires { SpanFits name × (SpanFits expr × (FiguresFit read × (name.end ≤ length text.now))) }
    ensures { result ≡ row_of name expr read (part text.now name.start name.end) }
{
    Row {
        name_start: name.start as u16,
        name_len: (name.end - name.start) as u16,
        expr_start: expr.start as u16,
        expr_len: (expr.end - expr.start) as u16,
        k: read.k as u16,
        p: read.p as u16,
        value: read.value,
        len: read.len as u32,
        tag: tag_of(&text[name.start..name.end]),
    }
}
