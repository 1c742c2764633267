// How far an assembly has come: the bindings made and the last return.
ghost use Rattle.std.specs.Prelude.{◌≡◌, ◌≤◌, ◌<◌, length};
ghost use Rattle.scope.specs.Part.{part};
ghost use Rattle.scope.specs.Code.Stored.{FiguresFit, SpanFits, Binds};

use crate::refusal::AssembleError;
use crate::table::row_of;
use base::Span;
use bindings::{Bindings, Values};
use figures::Figures;

// The last return: where its expression stands in the contract, and how many bindings were made before its line.
#[derive(Clone, Copy)]
pub struct Returned {
    pub expr: Span,
    pub count: usize,
    pub read: Figures,
}

#[derive(Clone, Copy)]
pub struct TableState {
    pub values: Values,
    pub table: Bindings,
    pub last: Option<Returned>,
}

impl TableState {
    // One binding more, where there are fewer than 256 (21).
    pub fn bind(
        &mut self,
        text: &[u8],
        name: Span,
        expr: Span,
        read: Figures,
    ) -> Result<(), AssembleError>
        requires { SpanFits name × (SpanFits expr × (FiguresFit read × (name.end ≤ length text.now))) }
        ensures { Binds self.old name expr read (part text.now name.start name.end) self.new result }
    {
        if 256 <= self.table.count {
            return Err(AssembleError::TooManyBindings);
        }
        let row = row_of(text, name, expr, read);
        self.values.set(self.table.count, row);
        self.table.push(row);
        Ok(())
    }
}
