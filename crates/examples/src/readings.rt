// E7 and E8: readings into buffers of 4,096 entries.
ghost use Rattle.std.specs.Prelude.{◌≡◌, [], ◌∷◌, replicate};
ghost use Rattle.numbered.specs.Numbered.{carrying};
ghost use Rattle.ops.specs.Ops.{read_text, answer_of};
ghost use Rattle.ops.specs.Numbers.{parsed_ops_numbered};
ghost use Rattle.examples.specs.Numbers.{Gives};
ghost use Rattle.examples.specs.Runs.{zeros, nines, Fills};

use operation::OpsError;
use ops::parse_ops;

pub fn push_plus(kinds: &mut [u8; 4096], operands: &mut [u64; 4096]) -> Result<usize, OpsError>
    requires { (kinds.old ≡ nines) × (operands.old ≡ zeros) }
    ensures { Gives (parsed_ops_numbered result) (carrying 0 (1 ∷ [])) operands.new (5 ∷ replicate 4095 0)
        × (kinds.new ≡ 0 ∷ replicate 4095 9) }
{
    read(b"Push +5", kinds, operands)
}

pub fn push_minus() -> Result<usize, OpsError>
    ensures { parsed_ops_numbered result ≡ carrying 28 (1 ∷ 5 ∷ 2 ∷ []) }
{
    answer(b"Push -0")
}

pub fn push_alone() -> Result<usize, OpsError>
    ensures { parsed_ops_numbered result ≡ carrying 30 (1 ∷ 0 ∷ 4 ∷ []) }
{
    answer(b"Push")
}

// A reading for its answer alone.
fn answer(text: &[u8]) -> Result<usize, OpsError>
    ensures { result ≡ answer_of (read_text text.now 4096) }
{
    let mut kinds = [9; 4096];
    let mut operands = [0; 4096];
    read(text, &mut kinds, &mut operands)
}

fn read(text: &[u8], kinds: &mut [u8; 4096], operands: &mut [u64; 4096]) -> Result<usize, OpsError>
    requires { (kinds.old ≡ nines) × (operands.old ≡ zeros) }
    ensures { Fills text.now result kinds.new operands.new }
{
    parse_ops(text, kinds, operands)
}
