// The figures of two expressions that an operator joins.
ghost use Rattle.std.specs.Prelude.{◌≡◌, ◌≤◌};
ghost use Rattle.word.specs.Code.Operator.{binary_of};
ghost use Rattle.grammar.specs.Tree.{applied};
ghost use Rattle.grammar.specs.Code.Lengths.{operator_length};
ghost use Rattle.figures.specs.Code.Figures.{SumsFit, Joined};

use crate::Figures;
use word::Operator;

// Two expressions joined by an operator. The figures of what is read from at most 65,536 bytes are small.
pub fn join(operator: Operator, left: Figures, right: Figures) -> Figures
    requires { SumsFit left × SumsFit right }
    ensures { Joined (binary_of operator) left right result }
{
    Figures {
        next: right.next,
        k: left.k + right.k,
        p: left.p.max(right.p + 1),
        len: left.len + right.len + line_len(operator),
        value: applied(operator, left.value, right.value),
    }
}

// An operation on none gives none.
fn applied(operator: Operator, a: Option<u64>, b: Option<u64>) -> Option<u64>
    ensures { result ≡ applied (binary_of operator) a b }
{
    operator.apply(a?, b?)
}

// The length of the line that an operator is written as: a word of two letters for a comparison, else of three, and a line feed.
fn line_len(operator: Operator) -> u64
    ensures { (result ≡ operator_length (binary_of operator)) × (result ≤ 4) }
{
    match operator {
        Operator::Less | Operator::Equal => 3,
        _ => 4,
    }
}
