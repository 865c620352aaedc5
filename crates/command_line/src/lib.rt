// What programs do alike with a command line: they read the arguments, and say what is wrong in one line on standard error.
#![tactic(auto)]

ghost use Rattle.std.specs.Prelude.{◌≡◌, ◌≤◌, ◌↔◌, length, Some, IfOk, IfSome, IsTrue};
ghost use Rattle.command_line.specs.Lines.{complaint, shown_name, IsBefore, AsksHelp, IsNameIn};

use std::env::{Env, FillError};
use std::fmt::{Display, Formatter, InlineText};
use std::{fmt, io, str};

// A program by the name that its complaints begin with, and the system that it runs on.
#[derive(Clone, Copy)]
pub struct Program<'a> {
    pub name: &'static str,
    pub rt: &'a HostRuntime,
}

// That it was said what is wrong.
#[derive(Clone, Copy)]
pub struct Complained;

// What is wrong with something, in one line: `listing: PAGES: over 16`
#[derive(Clone, Copy)]
struct Complaint<'a> {
    program: &'a str,
    of: &'a str,
    wrong: &'a str,
}

impl Display for Complaint<'_> {
    ghost output = { λ c. Some (complaint c.program.now c.of.now c.wrong.now) };

    fn fmt<W: fmt::Write>(&self, f: &mut Formatter<W>) -> fmt::Result {
        let (program, of, wrong) = (self.program, self.of, self.wrong);
        write!(f, "{program}: {of}: {wrong}")
    }
}

// What std writes after the system's words for an error, as in "Is a directory (os error 21)".
const AFTER: &str = " (os error ";

// The system's words in the line that std writes for an error.
fn words_in(line: &str) -> &str
    ensures { IsBefore AFTER.now line.now result.now }
{
    match line.split_once(AFTER) {
        Some((words, _)) => words,
        None => line,
    }
}

// A file name as it is shown.
fn shown_name(name: &str) -> &str
    ensures { result.now ≡ shown_name name.now }
{
    if name.is_empty() { "''" } else { name }
}

fn asks_help(argument: &[u8]) -> bool
    ensures { IsTrue result ↔ AsksHelp argument.now }
{
    matches!(argument, b"-h" | b"--help")
}

// The file name in an argument, or what is wrong with it: none is one that is too long.
fn name_in(argument: Option<&[u8]>) -> Result<&str, &'static str>
    ensures { IsNameIn argument.entry result }
{
    let Some(text) = argument else {
        return Err("File name too long");
    };
    str::from_utf8(text).map_err(|_| "File name not in UTF-8")
}

// std does not say what it prints, nor which bytes an argument has: what is said, and what an argument counts as, is promised above.
impl Program<'_> {
    // Says what is wrong with something, in one line.
    pub fn complain(self, of: &str, wrong: &str) -> Complained {
        let program = self.name;
        // Where that fails too, there is no place left to say so.
        let _ = self.rt.eprintln(Complaint { program, of, wrong });
        Complained
    }

    // Says why something failed, in the system's words alone.
    pub fn fail(self, of: &str, error: io::Error) -> Complained {
        let line = InlineText::<320>::of(error);
        self.complain(of, words_in(line.as_str()))
    }

    // Says why a file failed, by the name that it was given.
    pub fn fail_on(self, name: &str, error: io::Error) -> Complained {
        self.fail(shown_name(name), error)
    }

    // Prints, or says why not.
    pub fn print(self, text: &[u8]) {
        if let Err(error) = self.rt.write_all(text) {
            self.fail("standard output", error);
        }
    }

    // How many arguments there are, the program's own name among them; `most` where there are more.
    pub fn argument_count(self, most: usize) -> usize
        ensures { result ≤ most }
    {
        (0..most)
            .find(|i| matches!(self.rt.arg(*i, &mut []), Err(FillError::NotPresent)))
            .unwrap_or(most)
    }

    // Argument i, put at the start of a buffer; none where there is none, or one that is longer than the buffer.
    pub fn argument<'b>(self, i: usize, buf: &'b mut [u8]) -> Option<&'b [u8]>
        ensures { IfSome result (λ text. length text.now ≤ length buf.old) }
    {
        let n = self.rt.arg(i, buf).ok()?;
        Some(&buf[..n])
    }

    // Whether the first argument asks for help.
    pub fn help_asked(self) -> bool {
        self.argument(1, &mut [0u8; 4096]).is_some_and(asks_help)
    }

    // The file name that argument i is, put at the start of a buffer. The argument is there, and is called `what`.
    pub fn name_argument<'b>(
        self,
        i: usize,
        buf: &'b mut [u8],
        what: &str,
    ) -> Result<&'b str, Complained>
        ensures { IfOk result (λ name. length name.now ≤ length buf.old) }
    {
        name_in(self.argument(i, buf)).map_err(|wrong| self.complain(what, wrong))
    }
}
