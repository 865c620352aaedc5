// write_block RECORDS BLOCK: writes the boot block of a text file of records, and prints what it wrote. With -h or --help alone it
// prints how it is called. What is wrong is said in one line on standard error: no file is made then, and BLOCK keeps its bytes.
#![tactic(auto)]

use command_line::{Complained, Program};
use std::fs::OpenOptions;
use std::io::{ErrorKind, Seek, SeekFrom, Write};
use std::{fs, io};

// A text's bytes at most.
const TEXT: usize = 262144;

// A block's bytes at most.
const BLOCK: usize = 1568;

const USAGE: &str = "write_block RECORDS BLOCK";

const HELP: &str = "write_block RECORDS BLOCK\n\
    Writes the boot block of a list of records, and prints its length and how many records it has.\n\
    RECORDS: the text file, of at most 262,144 bytes, with a record on each line:\n\
    \x20 process ENTRY FIRST COUNT KIND\n\
    \x20 section ADDRESS SIZE OFFSET FLAGS\n\
    \x20 region START PAGES\n\
    KIND: 0 for the kernel; else 256 times the pages of the stack (0: sixteen), and 1 more where sections may be used in place\n\
    BLOCK: the boot block file, which is made, or written over where there is one\n\
    Commas, semicolons, blanks and tabs separate the fields. Numbers are decimal, or hexadecimal after 0x.\n\
    # starts a comment. Lines of the three kinds may be mixed, and keep their order within a kind.\n\
    With -h or --help alone it prints this.\n";

// What was done to a file; that it is no regular file counts as done.
fn unless_irregular(done: io::Result<()>) -> io::Result<()> {
    match done {
        Err(error) if error.kind() == ErrorKind::InvalidInput => Ok(()),
        done => done,
    }
}

// All that was written to the file is kept; else why not.
fn closed(file: fs::File) -> io::Result<()> {
    unless_irregular(file.sync_all())
}

// Writes the block to a file that was just made; where that fails the file is removed.
fn write_new(rt: &HostRuntime, mut file: fs::File, name: &str, block: &[u8]) -> io::Result<()> {
    if let Err(error) = file.write_all(block) {
        let _ = fs::remove_file(rt, name);
        return Err(error);
    }
    closed(file)
}

// Cuts the file to so many bytes.
fn cut(file: &fs::File, length: u64) -> io::Result<()> {
    unless_irregular(file.set_len(length))
}

// Writes the block over a file of `old` bytes, whose position is its end. What is longer than the file is written first: where
// there is no space for it, the file is cut to its old bytes.
fn write_over(file: &mut fs::File, block: &[u8], old: u64) -> io::Result<()> {
    let new = block.len() as u64;
    let (head, tail) = block.split_at(old.min(new) as usize);
    if let Err(error) = file.write_all(tail) {
        let _ = cut(file, old);
        return Err(error);
    }
    if old == 0 {
        return Ok(());
    }
    file.rewind()?;
    file.write_all(head)?;
    if old <= new {
        return Ok(());
    }
    cut(file, new)
}

// Writes the block to a file that there is. One that has no end, as a pipe, counts as one of no bytes.
fn write_existing(mut file: fs::File, block: &[u8]) -> io::Result<()> {
    let end = file.seek(SeekFrom::End(0)).unwrap_or(0);
    write_over(&mut file, block, end)?;
    closed(file)
}

// The block was written; else why not.
fn write_file(rt: &HostRuntime, name: &str, block: &[u8]) -> io::Result<()> {
    match OpenOptions::new().read(true).write(true).open(rt, name) {
        Ok(file) => write_existing(file, block),
        Err(error) if error.kind() == ErrorKind::NotFound => {
            let made = OpenOptions::new()
                .write(true)
                .create_new(true)
                .open(rt, name)?;
            write_new(rt, made, name, block)
        }
        Err(error) => Err(error),
    }
}

// Says what is wrong with the records, in the line that the library gives.
fn say(program: Program<'_>, line: &[u8]) -> Complained {
    let _ = program.rt.stderr().write_all(line);
    Complained
}

// Writes the block of a text's records, and prints the reply, of fewer than 256 bytes.
#[tactic(auto, using(crate::proofs::Lengths::block_in_buffer, crate::proofs::Lengths::block_part))]
fn write_records(program: Program<'_>, text: &[u8], name: &str) -> Result<(), Complained> {
    let mut block = [0u8; BLOCK];
    let mut reply = [0u8; 256];
    let written = write_report::write_from_text(text, &mut block, &mut reply);
    let line = &reply[..written.end];
    let Some(length) = written.length else {
        return Err(say(program, line));
    };
    let block = &block[..length as usize];
    write_file(program.rt, name, block).map_err(|error| program.fail_on(name, error))?;
    program.print(line);
    Ok(())
}

fn write_arguments(program: Program<'_>) -> Result<(), Complained> {
    let mut records_text = [0u8; 4096];
    let mut block_text = [0u8; 4096];
    let mut text = buffers::zeros::<TEXT>();
    let records = program.name_argument(1, &mut records_text, "RECORDS")?;
    let block = program.name_argument(2, &mut block_text, "BLOCK")?;
    let text = program_files::whole_file(program, records, &mut text, "over 262,144 bytes")?;
    write_records(program, text, block)
}

fn main(rt: HostRuntime) {
    let program = Program {
        name: "write_block",
        rt: &rt,
    };
    // The program's own name counts too.
    match program.argument_count(4) {
        0 | 1 => _ = program.complain("RECORDS is missing", USAGE),
        2 if program.help_asked() => program.print(HELP.as_bytes()),
        2 => _ = program.complain("BLOCK is missing", USAGE),
        3 => _ = write_arguments(program),
        _ => _ = program.complain("too many arguments", USAGE),
    }
}
