// What each operation does once its price is taken. The loop of crate `metered` calls these, and its registers
// are always ready for one operation more, which `CanStep` says of them and of the stack buffer: C lends that, so no struct holds both.
// What a contract leaves free is named at `RefinesEffect`.
ghost use Rattle.std.specs.Prelude.{◌≡◌, ℕ, ◌+◌, ◌-◌, ◌^◌, ◌<◌, ◌≤◌, min, not, Bool, List, length, ◌==◌, nat_eq};
ghost use Rattle.word.specs.Code.Operator.{binary_of};
ghost use Rattle.machine.specs.Machine.{jumps, push_of, binop_of, dup_of, swap_of, jump_if_of, load_of, store_of};
ghost use Rattle.machine.specs.Code.Registers.{CanStep, RefinesEffect, RefinesOnStack, gone_on};

use super::{Refusal, Regs, Status, registers};
use kinds::{MAX_STACK_ITEMS, MAX_STORAGE_SLOTS};
use word::Operator;

pub fn push(stack: &mut [u64], r: Regs, v: u64) -> Regs
    requires { CanStep r (length stack.old) }
    ensures { RefinesOnStack (r.pos + 1) (push_of v) r result stack.old stack.new }
{
    let n = r.items;
    if n >= MAX_STACK_ITEMS {
        return registers::stop(r, Refusal::StackLimitExceeded);
    }
    stack[n] = v;
    go_on(r, r.pos + 1, n + 1, r.used)
}

// An operator stands for the Rust's closures. Its type has the six operations once, for the assembler's expressions too.
pub fn binop(stack: &mut [u64], r: Regs, operator: Operator) -> Regs
    requires { CanStep r (length stack.old) }
    ensures { RefinesOnStack (r.pos + 1) (binop_of (binary_of operator)) r result stack.old stack.new }
{
    let n = r.items;
    if n < 2 {
        return registers::stop(r, Refusal::StackUnderflow);
    }
    let b = stack[n - 1];
    let a = stack[n - 2];
    match operator.apply(a, b) {
        None => registers::stop(r, Refusal::DivisionByZero),
        Some(value) => {
            stack[n - 2] = value;
            go_on(r, r.pos + 1, n - 1, r.used)
        }
    }
}

pub fn dup(stack: &mut [u64], r: Regs) -> Regs
    requires { CanStep r (length stack.old) }
    ensures { RefinesOnStack (r.pos + 1) dup_of r result stack.old stack.new }
{
    let n = r.items;
    if n < 1 {
        return registers::stop(r, Refusal::StackUnderflow);
    }
    let v = stack[n - 1];
    push(stack, r, v)
}

pub fn swap(stack: &mut [u64], r: Regs) -> Regs
    requires { CanStep r (length stack.old) }
    ensures { RefinesOnStack (r.pos + 1) swap_of r result stack.old stack.new }
{
    let n = r.items;
    if n < 2 {
        return registers::stop(r, Refusal::StackUnderflow);
    }
    let b = stack[n - 1];
    let a = stack[n - 2];
    stack[n - 1] = a;
    stack[n - 2] = b;
    go_on(r, r.pos + 1, n, r.used)
}

pub fn jump(r: Regs, t: u64) -> Regs
    requires ops_bound { r.ops + 1 < 2 ^ 64 }
    requires items_bound { r.items ≤ 4096 }
    ensures { (s : List ℕ) → RefinesOnStack 0 (jumps t) r result s s }
{
    go_on(r, t as usize, r.items, r.used)
}

pub fn jump_if_zero(stack: &[u64], r: Regs, t: u64) -> Regs
    requires { CanStep r (length stack.now) }
    ensures { RefinesOnStack 0 (jump_if_of (λ x. nat_eq x 0) t) r result stack.now stack.now }
{
    jump_if(stack, r, t, |item| item == 0)
}

pub fn jump_if_not_zero(stack: &[u64], r: Regs, t: u64) -> Regs
    requires { CanStep r (length stack.now) }
    ensures { RefinesOnStack 0 (jump_if_of (λ x. not (x == 0)) t) r result stack.now stack.now }
{
    jump_if(stack, r, t, |item| item != 0)
}

// A jump where a test of the popped item holds.
fn jump_if<F: Fn(u64) -> bool>(stack: &[u64], r: Regs, t: u64, test: F) -> Regs
    requires can_step { CanStep r (length stack.now) }
    requires callable { F.IsAlwaysCallable test }
    ensures { (p : ℕ → Bool) → ((x : ℕ) (b : Bool) → F.post test x b → b ≡ p x)
        → RefinesOnStack 0 (jump_if_of p t) r result stack.now stack.now }
{
    let n = r.items;
    if n < 1 {
        return registers::stop(r, Refusal::StackUnderflow);
    }
    if test(stack[n - 1]) {
        return go_on(r, t as usize, n - 1, r.used);
    }
    go_on(r, r.pos + 1, n - 1, r.used)
}

pub fn load(stack: &mut [u64], work: &[u64], r: Regs, slot: u64) -> Regs
    requires can_step { CanStep r (length stack.old) }
    requires used_in_bounds { r.used ≤ length work.now }
    ensures { RefinesEffect (r.pos + 1) (load_of slot) r result stack.old work.now stack.new
        work.now }
{
    let at = slot as usize;
    let end = r.used;
    if at < end {
        return push(stack, r, work[at]);
    }
    push(stack, r, 0)
}

pub fn store(stack: &[u64], work: &mut [u64], r: Regs, slot: u64) -> Regs
    requires can_step { CanStep r (length stack.now) }
    requires used_in_bounds { r.used ≤ length work.old }
    ensures { RefinesEffect (r.pos + 1) (store_of (length work.old) slot) r result stack.now
        work.old stack.now work.new }
{
    let n = r.items;
    if n < 1 {
        return registers::stop(r, Refusal::StackUnderflow);
    }
    let v = stack[n - 1];
    if slot >= MAX_STORAGE_SLOTS as u64 {
        return registers::stop(r, Refusal::StorageLimitExceeded(requested(slot)));
    }
    let at = slot as usize;
    let used = r.used;
    if at >= work.len() {
        return registers::stop(r, Refusal::OutsideStorage);
    }
    if at < used {
        work[at] = v;
        return go_on(r, r.pos + 1, n - 1, used);
    }
    work[used..at].fill(0);
    work[at] = v;
    go_on(r, r.pos + 1, n - 1, at + 1)
}

// The registers after an operation that goes on.
fn go_on(r: Regs, pos: usize, items: usize, used: usize) -> Regs
    requires { r.ops + 1 < 2 ^ 64 }
    ensures { result ≡ gone_on r pos items used }
{
    Regs {
        pos,
        items,
        used,
        ops: r.ops + 1,
        status: Status::Going,
        ..r
    }
}

// The slots that the storage would need, as far as a word counts them.
fn requested(slot: u64) -> u64
    ensures { result ≡ min (slot + 1) (2 ^ 64 - 1) }
{
    slot.saturating_add(1)
}
