// The beginning of a file.
#![tactic(auto)]

ghost use Rattle.std.specs.Prelude.{◌≡◌, ◌<◌, ◌≤◌, length, take, IfOk, vec_len};
ghost use Rattle.std.specs.Io.KnownBytes.{Consumes, IsAtEnd};

use std::alloc::Global;
use std::fs::{File, Files};
use std::io;
use std::io::{ErrorKind, Read};

#[cfg(test)]
mod tests;

// Reads a file from its beginning until it ends or the buffer is full, and gives the number of bytes. A missing file is
// empty. What a file holds, and whether it is there, no contract can say: the tests below do.
pub fn read_start<R: Files>(rt: &R, path: &str, buffer: &mut [u8]) -> io::Result<usize>
    ensures within { IfOk result (λ n. n ≤ length buffer.old) }
    ensures size { length buffer.new ≡ length buffer.old }
{
    match open_if_there(rt, path)? {
        Some(mut file) => fill(&mut file, buffer),
        None => Ok(0),
    }
}

// The first bytes of a file, until it ends or there are `most`, where no row is lent for them. A missing file is empty.
pub fn first_bytes<R: Files + AllocGlobal>(rt: &R, path: &str, most: usize) -> io::Result<Vec<u8>>
    ensures { IfOk result (λ bytes. vec_len bytes ≤ most) }
{
    match open_if_there(rt, path)? {
        Some(mut file) => take_most(rt.alloc(), &mut file, most),
        None => Ok(Vec::new(rt.alloc())),
    }
}

// The file of a path, if there is one. That it can't be opened for another reason is an error.
fn open_if_there<R: Files>(rt: &R, path: &str) -> io::Result<Option<R::File>> {
    match File::open(rt, path) {
        Ok(file) => Ok(Some(file)),
        Err(e) => match e.kind() {
            ErrorKind::NotFound => Ok(None),
            _ => Err(e),
        },
    }
}

// Takes `most` bytes from a source, or all that it has where they are fewer: they are the source's next ones, in their order.
// (The library's `take` and `read_to_end` do not promise that a source whose bytes are unknown gives no more than `most`.)
fn take_most<R: Read>(heap: Global, source: &mut R, most: usize) -> io::Result<Vec<u8>>
    ensures within { IfOk result (λ bytes. vec_len bytes ≤ most) }
    ensures taken { IfOk result (λ bytes. Consumes (R.remaining source.old) (R.remaining source.new) bytes.items) }
    ensures ends { IfOk result (λ bytes. vec_len bytes < most → IsAtEnd (R.remaining source.new)) }
{
    let mut bytes = vec![in heap; 0u8; most]?;
    let len = fill(source, bytes.as_mut_slice())?;
    bytes.truncate(len);
    Ok(bytes)
}

// Reads until the source ends or the buffer is full, and gives the number of bytes: they are the source's next ones, in their
// order, and where they do not fill the buffer, the source has no more. A read may give fewer bytes than there is room for; one
// that gives none is at the end.
fn fill<R: Read>(source: &mut R, buffer: &mut [u8]) -> io::Result<usize>
    ensures within { IfOk result (λ n. n ≤ length buffer.old) }
    ensures size { length buffer.new ≡ length buffer.old }
    ensures taken { IfOk result (λ n. Consumes (R.remaining source.old) (R.remaining source.new) (take n buffer.new)) }
    ensures ends { IfOk result (λ n. n < length buffer.old → IsAtEnd (R.remaining source.new)) }
{
    let mut len = 0;
    while len < buffer.len() {
        let n = source.read(&mut buffer[len..])?;
        if n == 0 {
            break;
        }
        len += n;
    }
    Ok(len)
}
