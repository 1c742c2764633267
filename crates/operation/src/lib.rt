// What one line of an ops text says: an operation, nothing, or a refusal.
#![tactic(auto)]

pub mod line;

ghost use Rattle.std.specs.Prelude.{◌≡◌};
ghost use Rattle.operation.specs.Errors.{ops_error_numbered};

use numbered::{Answer, Numbered, carrying, plain};

// Lines are counted from 1. Offsets count bytes from 0 in the whole text. The first one and the last two are given by crate ops alone.
// `line`, `place` and `len` stand in each case, as the Rust's enum has its fields.
#[derive(Clone, Copy, Debug, PartialEq, Eq)]
pub enum OpsError {
    NotUtf8,
    BadPush {
        line: usize,
        place: usize,
        len: usize,
    },
    BadSlot {
        line: usize,
        place: usize,
        len: usize,
    },
    UnknownOp {
        line: usize,
        place: usize,
        len: usize,
    },
    BadTarget {
        line: usize,
        place: usize,
        len: usize,
    },
    Full {
        line: usize,
    },
    Empty,
}

impl Answer for OpsError {
    ghost numbered_as = { ops_error_numbered };

    fn numbered(self) -> Numbered {
        match self {
            OpsError::NotUtf8 => plain(27),
            OpsError::BadPush { line, place, len } => {
                carrying(28, [line as u64, place as u64, len as u64])
            }
            OpsError::BadSlot { line, place, len } => {
                carrying(29, [line as u64, place as u64, len as u64])
            }
            OpsError::UnknownOp { line, place, len } => {
                carrying(30, [line as u64, place as u64, len as u64])
            }
            OpsError::BadTarget { line, place, len } => {
                carrying(31, [line as u64, place as u64, len as u64])
            }
            OpsError::Full { line } => carrying(32, [line as u64]),
            OpsError::Empty => plain(33),
        }
    }
}
