// The calls that are replayed.

#[derive(Clone, Copy, Debug, PartialEq, Eq)]
pub enum Call {
    Text(TextCall),
    ParseOps,
    Assemble,
    Verify,
    Run(RunCall),
}

// Calls whose arguments are one or two texts, or two numbers.
#[derive(Clone, Copy, Debug, PartialEq, Eq)]
pub enum TextCall {
    IsUtf8,
    Trim,
    TrimStart,
    TrimEnd,
    Lines,
    FromStr,
    Rewritten,
    Digits,
    Find,
    FindByte,
    WrappingMul,
    FindFunction,
    JsonU64ForKey,
    ExecutionGate,
}

// Calls that run a program.
#[derive(Clone, Copy, Debug, PartialEq, Eq)]
pub enum RunCall {
    RunWithGas,
    ExecuteStateTransitionWithGas,
    ExecuteStateTransition,
}

#[derive(Clone, Copy, Debug, PartialEq, Eq)]
pub struct UnknownLetter(pub u8);

impl TryFrom<u8> for Call {
    type Error = UnknownLetter;

    fn try_from(letter: u8) -> Result<Call, UnknownLetter> {
        match letter {
            b'u' => Ok(Call::Text(TextCall::IsUtf8)),
            b't' => Ok(Call::Text(TextCall::Trim)),
            b's' => Ok(Call::Text(TextCall::TrimStart)),
            b'e' => Ok(Call::Text(TextCall::TrimEnd)),
            b'l' => Ok(Call::Text(TextCall::Lines)),
            b'n' => Ok(Call::Text(TextCall::FromStr)),
            b'w' => Ok(Call::Text(TextCall::Rewritten)),
            b'd' => Ok(Call::Text(TextCall::Digits)),
            b'f' => Ok(Call::Text(TextCall::Find)),
            b'b' => Ok(Call::Text(TextCall::FindByte)),
            b'm' => Ok(Call::Text(TextCall::WrappingMul)),
            b'F' => Ok(Call::Text(TextCall::FindFunction)),
            b'V' => Ok(Call::Text(TextCall::JsonU64ForKey)),
            b'G' => Ok(Call::Text(TextCall::ExecutionGate)),
            b'O' => Ok(Call::ParseOps),
            b'A' => Ok(Call::Assemble),
            b'C' => Ok(Call::Verify),
            b'R' => Ok(Call::Run(RunCall::RunWithGas)),
            b'T' => Ok(Call::Run(RunCall::ExecuteStateTransitionWithGas)),
            b'S' => Ok(Call::Run(RunCall::ExecuteStateTransition)),
            _ => Err(UnknownLetter(letter)),
        }
    }
}
