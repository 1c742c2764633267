// The stem that the output names.
ghost use Rattle.std.specs.Prelude.{◌≡◌};
ghost use Rattle.contract.specs.Output.{stem_fits};

use utf8::is_utf8;

// Not empty, at most 255 bytes, UTF-8, without a line feed.
pub fn stem_fits(stem: &[u8]) -> bool
    ensures { result ≡ stem_fits stem.now }
{
    if stem.is_empty() || 255 < stem.len() {
        return false;
    }
    is_utf8(stem) && !stem.contains(&b'\n')
}
