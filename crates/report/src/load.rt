// A file's bytes, read into a lent buffer until the file ends.
ghost use Rattle.std.specs.Prelude.{◌≡◌, ◌↔◌, ◌≤◌, IfOk, IsOk, IsUtf8, length};
ghost use Rattle.std.specs.Io.{ReadsAtMost};

use crate::complain::{Complained, Complaints};
use std::fs::File;
use std::io;
use std::rt::Files;

// The name of a file as the library takes it, which is as text.
pub fn path_of(name: &[u8]) -> io::Result<&str>
    ensures same { IfOk result (λ path. path.now ≡ name.now) }
    ensures text { IsOk result ↔ IsUtf8 name.now }
{
    str::from_utf8(name).map_err(|_| io::Error::from(io::ErrorKind::InvalidFilename))
}

pub fn open<R: Files>(rt: &R, name: &[u8]) -> io::Result<R::File> {
    File::open(rt, path_of(name)?)
}

fn read_file(rt: &impl Files, name: &[u8], buffer: &mut [u8]) -> io::Result<usize>
    ensures { ReadsAtMost result buffer.new }
{
    let mut file = open(rt, name)?;
    buffers::read_full(&mut file, buffer)
}

// The bytes of the file, as far as the buffer holds them. A file that cannot be read is complained of.
pub fn load<'a>(
    rt: &impl Files,
    complaints: &Complaints<impl Print>,
    complaint: &str,
    name: &[u8],
    buffer: &'a mut [u8],
) -> Result<&'a [u8], Complained>
    ensures { IfOk result (λ bytes. length bytes.now ≤ length buffer.old) }
{
    match read_file(rt, name, buffer) {
        Ok(n) => Ok(&buffer[..n]),
        Err(error) => Err(complaints.failed(complaint, name, &error)),
    }
}
