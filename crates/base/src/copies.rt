// Copying from one slice to another.
ghost use Rattle.std.specs.Prelude.{◌≡◌, length};

// All of one slice to another that is as long. (std's `copy_from_slice` becomes `memmove` where a length isn't known, a function that the
// archive for C would need from outside beside `memcpy`.) Its callers cut both to one length.
pub fn copy<T: Copy>(to: &mut [T], from: &[T])
    requires { length to.old ≡ length from.now }
    ensures { to.new ≡ from.now }
{
    for i in 0..from.len() {
        to[i] = from[i];
    }
}
