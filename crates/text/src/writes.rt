// Bytes and numbers to a writer, with what an error leaves. (std's `write_all` says nothing of that.)
ghost use Rattle.std.specs.Prelude.{OnOk, decimal};
ghost use Rattle.std.specs.Io.KnownBytes.{Appends};
ghost use Rattle.text.specs.Written.{Grows};

use itoa::Buffer;
use std::io;
use std::io::{Error, ErrorKind, Write};

// Writes all the bytes. A writer that takes none of them is an error, as in std.
pub fn put<W: Write>(out: &mut W, bytes: &[u8]) -> io::Result<()>
    ensures ok { OnOk result (Appends (W.contents out.old) (W.contents out.new) bytes.now) }
    ensures grows { Grows (W.contents out.old) (W.contents out.new) }
{
    let mut done = 0;
    while done < bytes.len() {
        let n = out.write(&bytes[done..])?;
        if n == 0 {
            return Err(Error::from(ErrorKind::WriteZero));
        }
        done += n;
    }
    Ok(())
}

// Writes a number in decimal.
pub fn put_number<W: Write>(out: &mut W, n: u64) -> io::Result<()>
    ensures ok { OnOk result (Appends (W.contents out.old) (W.contents out.new) (decimal n)) }
    ensures grows { Grows (W.contents out.old) (W.contents out.new) }
{
    let mut digits = Buffer::new();
    put(out, digits.format(n).as_bytes())
}
