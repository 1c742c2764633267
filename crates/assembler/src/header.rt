// The two remarks that the output starts with.
ghost use Rattle.std.specs.Prelude.{◌≡◌, ◌≤◌, length};
ghost use Rattle.contract.specs.Output.{header};
ghost use Rattle.writer.specs.Code.Overwrites.{Overwrites};

use decimal::decimal_len;
use writer::{put_bytes, put_decimal};

// `write_output` calls it for a stem that fits (25), which has at most 255 bytes.
pub fn header_len(stem: &[u8], expected: u64) -> usize
    requires { length stem.now ≤ 255 }
    ensures { result ≡ length (header stem.now expected) }
{
    26 + stem.len() + decimal_len(expected)
}

// `write_output` calls it where the whole output has room (26).
pub fn put_header(out: &mut [u8], stem: &[u8], expected: u64) -> usize
    requires { length (header stem.now expected) ≤ length out.old }
    ensures { Overwrites out.old 0 (header stem.now expected) out.new result }
{
    let name = put_bytes(out, 0, b"# contract: ");
    let line = put_bytes(out, name, stem);
    let value = put_bytes(out, line, b"\n# expected: ");
    let end = put_decimal(out, value, expected);
    put_bytes(out, end, b"\n")
}
