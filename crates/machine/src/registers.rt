// The registers after a payment, and after an operation that ends or is refused. `step_of` of crate `metered` calls `pay`
// only where the gas is enough.
ghost use Rattle.std.specs.Prelude.{◌≡◌, ◌≤◌};
ghost use Rattle.machine.specs.Code.Registers.{ended, stopped, paid};

use super::{Refusal, Regs, Status};

pub fn pay(r: Regs, price: u64) -> Regs
    requires { price ≤ r.gas }
    ensures { result ≡ paid r price }
{
    Regs {
        gas: r.gas - price,
        ..r
    }
}

pub fn end(r: Regs, ops: u64) -> Regs
    ensures { result ≡ ended r ops }
{
    Regs {
        ops,
        status: Status::Ended,
        ..r
    }
}

pub fn stop(r: Regs, why: Refusal) -> Regs
    ensures { result ≡ stopped r why }
{
    Regs {
        status: Status::Refused(why),
        ..r
    }
}
