// Arguments and files, read into a buffer as far as it holds them. As with std's `Read`, a call tells how many bytes that is.
#![tactic(auto)]

ghost use Rattle.std.specs.Counts.{IsPrefixLen};
ghost use Rattle.std.specs.Io.{ReadsAtMost};

use std::env::{Env, FillError};
use std::io::{self, ErrorKind, Read};
use std::rt::Files;
use std::{fs, str};

// How many bytes at the start of the buffer are the argument. One that is too long fills the buffer, and names no file.
pub fn argument(rt: &impl Env, i: usize, buf: &mut [u8]) -> usize
    ensures { IsPrefixLen result buf.new }
{
    match rt.arg(i, buf) {
        Ok(n) => n,
        Err(FillError::TooLong) => buf.len(),
        Err(FillError::NotPresent) => 0,
    }
}

// How many bytes at the start of the buffer stand in the file, as far as they fit. A path that isn't UTF-8 names no file.
pub fn read(rt: &impl Files, path: &[u8], buf: &mut [u8]) -> io::Result<usize>
    ensures { ReadsAtMost result buf.new }
{
    let name = str::from_utf8(path).map_err(|_| io::Error::from(ErrorKind::InvalidInput))?;
    let mut file = fs::open(rt, name)?;
    fill(&mut file, buf)
}

// Reads until the buffer is full or the file ends; how many bytes that is.
pub fn fill(file: &mut impl Read, buf: &mut [u8]) -> io::Result<usize>
    ensures { ReadsAtMost result buf.new }
{
    let mut done: usize = 0;
    // A step is as long as what one read gives, so no iterator is plainer.
    while done < buf.len() {
        let n = file.read(&mut buf[done..])?;
        if n == 0 {
            break;
        }
        done += n;
    }
    Ok(done)
}
