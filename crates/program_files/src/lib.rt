// Files that a program reads whole, into a buffer of a fixed length.
#![tactic(auto)]

ghost use Rattle.std.specs.Prelude.{◌≤◌, length, IfOk};
ghost use Rattle.program_files.specs.Reads.{Filled, Holds, Within};

use command_line::{Complained, Program};
use std::io::Read;
use std::{fs, io};

// What a buffer holds of a file.
#[derive(Clone, Copy)]
pub enum Contents<'b> {
    // All bytes.
    Whole(&'b [u8]),
    // The first bytes, where there are more than the buffer has room for.
    Start(&'b [u8]),
}

// Reads until the buffer is full or the file ends, and returns how many bytes were read.
fn read_full<F: Read>(file: &mut F, buf: &mut [u8]) -> io::Result<usize>
    ensures bound { IfOk result (λ n. n ≤ length buf.new) }
    ensures bytes { IfOk result (λ n. Filled (F.remaining file.old) (F.remaining file.new) buf.new n) }
{
    let mut done = 0;
    // A while: a read may give less than there is room for.
    while done < buf.len() {
        let n = file.read(&mut buf[done..])?;
        if n == 0 {
            break;
        }
        done += n;
    }
    Ok(done)
}

// Puts what a reader has left at the start of the buffer, as much of it as there is room for.
pub fn read_whole<'b, F: Read>(file: &mut F, buf: &'b mut [u8]) -> io::Result<Contents<'b>>
    ensures bound { IfOk result (Within (length buf.old)) }
    ensures bytes { IfOk result (Holds (F.remaining file.old) (length buf.old)) }
{
    let n = read_full(file, buf)?;
    // What is left to read shows whether the file ended or goes on.
    let more = file.read(&mut [0u8; 1])?;
    let bytes = &buf[..n];
    Ok(if more == 0 {
        Contents::Whole(bytes)
    } else {
        Contents::Start(bytes)
    })
}

// The same of the file of a name.
pub fn read_file<'b>(rt: &HostRuntime, name: &str, buf: &'b mut [u8]) -> io::Result<Contents<'b>>
    ensures { IfOk result (Within (length buf.old)) }
{
    let mut file = fs::open(rt, name)?;
    read_whole(&mut file, buf)
}

// All bytes of the file of a name, put at the start of the buffer. It is said what is wrong where they cannot be read, and by `over` where
// there are more than the buffer has room for.
pub fn whole_file<'b>(
    program: Program<'_>,
    name: &str,
    buf: &'b mut [u8],
    over: &str,
) -> Result<&'b [u8], Complained>
    ensures { IfOk result (λ bytes. length bytes.now ≤ length buf.old) }
{
    match read_file(program.rt, name, buf) {
        Ok(Contents::Whole(bytes)) => Ok(bytes),
        Ok(Contents::Start(_)) => Err(program.complain(name, over)),
        Err(error) => Err(program.fail_on(name, error)),
    }
}
