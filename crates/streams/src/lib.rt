// Bytes from an input into a buffer, and from a buffer to an output, with what stands where after an error.
#![tactic(auto)]

ghost use Rattle.std.specs.Prelude.{ℕ, ◌<◌, ◌≤◌, length, take, IfOk, OnOk, OnErr};
ghost use Rattle.std.specs.Io.{ReadsAtMost};
ghost use Rattle.std.specs.Io.KnownBytes.{Appends, Consumes, IsAtEnd};

use std::io;
use std::io::{ErrorKind, Read, Write};

// Reads until buf is full or the input ends, and gives how many bytes it put at the start of buf. A read that fails
// ends it with that error; what was read before it stands at the start of buf.
pub fn read_full<R: Read>(input: &mut R, buf: &mut [u8]) -> io::Result<usize>
    ensures bound { ReadsAtMost result buf.new }
    ensures bytes { IfOk result (λ n. Consumes (R.remaining input.old) (R.remaining input.new) (take n buf.new)) }
    ensures end { IfOk result (λ n. n < length buf.new → IsAtEnd (R.remaining input.new)) }
    ensures err { OnErr result ((n : ℕ) × (n ≤ length buf.new) × Consumes (R.remaining input.old) (R.remaining input.new) (take n buf.new)) }
{
    let mut done: usize = 0;
    while done < buf.len() {
        let got = input.read(&mut buf[done..])?;
        if got == 0 {
            break;
        }
        done += got;
    }
    Ok(done)
}

// Writes all of buf. A write that fails, or that takes nothing, ends it with an error; what was written before it is a
// start of buf.
pub fn write_full<W: Write>(output: &mut W, buf: &[u8]) -> io::Result<()>
    ensures ok { OnOk result (Appends (W.contents output.old) (W.contents output.new) buf.now) }
    ensures err { OnErr result ((n : ℕ) × (n ≤ length buf.now) × Appends (W.contents output.old) (W.contents output.new) (take n buf.now)) }
{
    let mut done: usize = 0;
    while done < buf.len() {
        let put = output.write(&buf[done..])?;
        if put == 0 {
            return Err(io::Error::from(ErrorKind::WriteZero));
        }
        done += put;
    }
    Ok(())
}

#[cfg(test)]
mod tests {
    use super::*;

    #[test]
    fn reads_to_the_end(rt: HostRuntime) -> io::Result<()> {
        let mut input: &[u8] = b"seven";
        let mut buf = [0u8; 3];
        let first = read_full(&mut input, &mut buf)?;
        assert_eq!(rt; &buf[..first], b"sev".as_slice());
        let second = read_full(&mut input, &mut buf)?;
        assert_eq!(rt; &buf[..second], b"en".as_slice());
        Ok(())
    }

    #[test]
    fn writes_while_there_is_room(rt: HostRuntime) -> io::Result<()> {
        let mut room = [0u8; 8];
        let mut output: &mut [u8] = &mut room;
        write_full(&mut output, b"seven")?;
        let taken = write_full(&mut output, b"eight");
        assert!(rt; taken.is_err());
        assert_eq!(rt; room.as_slice(), b"seveneig".as_slice());
        Ok(())
    }
}
