// One operation: its price, then what it does.
ghost use Rattle.std.specs.Prelude.{◌<◌, ◌^◌, length};
ghost use Rattle.kinds.specs.Kinds.{operation};
ghost use Rattle.machine.specs.Code.Registers.{Running, RefinesStep};

use machine::{Refusal, Regs, operations, price, registers};
use word::Operator;

// One kind's step. The kind is a const parameter, so the price and the match fold away.
fn step_of<const KIND: u8>(
    operand: u64,
    caller: u64,
    stack: &mut [u64],
    work: &mut [u64],
    r: Regs,
) -> Regs
    requires running { Running r (length stack.old) (length work.old) }
    requires pos_bound { r.pos < 2 ^ 63 }
    ensures { RefinesStep caller (operation KIND operand) r result stack.old work.old stack.new
        work.new }
{
    let p = price::gas_cost(KIND);
    let g = r.gas;
    if g < p {
        return registers::stop(r, Refusal::OutOfGas { price: p, left: g });
    }
    let q = registers::pay(r, p);
    match KIND {
        0 => operations::push(stack, q, operand),
        1 => operations::binop(stack, q, Operator::Add),
        2 => operations::binop(stack, q, Operator::Sub),
        3 => operations::binop(stack, q, Operator::Mul),
        4 => operations::binop(stack, q, Operator::Div),
        5 => operations::dup(stack, q),
        6 => operations::swap(stack, q),
        7 => operations::jump(q, operand),
        8 => operations::jump_if_not_zero(stack, q, operand),
        9 => operations::binop(stack, q, Operator::Equal),
        10 => operations::binop(stack, q, Operator::Less),
        11 => operations::load(stack, work, q, operand),
        12 => operations::store(stack, work, q, operand),
        13 => operations::push(stack, q, caller),
        14 => operations::jump_if_zero(stack, q, operand),
        _ => registers::end(q, q.ops + 1),
    }
}

// The step of an operation by its kind, the byte that C's buffer holds; one above 15 is taken for Halt.
pub fn step(
    kind: u8,
    operand: u64,
    caller: u64,
    stack: &mut [u64],
    work: &mut [u64],
    r: Regs,
) -> Regs
    requires running { Running r (length stack.old) (length work.old) }
    requires pos_bound { r.pos < 2 ^ 63 }
    ensures { RefinesStep caller (operation kind operand) r result stack.old work.old stack.new
        work.new }
{
    match kind {
        0 => step_of::<0>(operand, caller, stack, work, r),
        1 => step_of::<1>(operand, caller, stack, work, r),
        2 => step_of::<2>(operand, caller, stack, work, r),
        3 => step_of::<3>(operand, caller, stack, work, r),
        4 => step_of::<4>(operand, caller, stack, work, r),
        5 => step_of::<5>(operand, caller, stack, work, r),
        6 => step_of::<6>(operand, caller, stack, work, r),
        7 => step_of::<7>(operand, caller, stack, work, r),
        8 => step_of::<8>(operand, caller, stack, work, r),
        9 => step_of::<9>(operand, caller, stack, work, r),
        10 => step_of::<10>(operand, caller, stack, work, r),
        11 => step_of::<11>(operand, caller, stack, work, r),
        12 => step_of::<12>(operand, caller, stack, work, r),
        13 => step_of::<13>(operand, caller, stack, work, r),
        14 => step_of::<14>(operand, caller, stack, work, r),
        _ => step_of::<15>(operand, caller, stack, work, r),
    }
}
