// What an operation costs.
ghost use Rattle.std.specs.Prelude.{◌≡◌};
ghost use Rattle.kinds.specs.Kinds.{kind_of};

// The price of an operation by its kind number, as document 01 has it. A kind above 15 costs what Halt costs.
pub fn gas_cost(kind: u8) -> u64
    ensures { result ≡ (kind_of kind).price }
{
    match kind {
        0 | 5..=6 | 13 => 1,
        1..=4 | 7..=10 | 14 => 2,
        11..=12 => 3,
        15 => 0,
        _ => 0,
    }
}
