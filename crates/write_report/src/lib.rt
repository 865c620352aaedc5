// The block that is written from a text of records, and the reply: what is wrong with a line, the refusal, or what was written.
#![tactic(auto)]

ghost use Rattle.std.specs.Prelude.{◌≡◌, ◌++◌, [], ◌/◌, length, get_or, Err};
ghost use Rattle.text.specs.Text.{Appended};
ghost use Rattle.refusals.specs.Answers.{written_of};
ghost use Rattle.text.specs.Puts.{Puts};
ghost use Rattle.record_fields.specs.Fields.{fields};
ghost use Rattle.record_lines.specs.Lines.{line_of};
ghost use Rattle.write_report.specs.Lines.{shown_byte, shown, verb, cause_text, fault_line, counted, counts_text, block_line};
ghost use Rattle.write_report.specs.Replies.{held_line, reply_to, length_from, buffer_from};

use record_lines::Fault;
use record_texts::Read;
use refusals::Refused;
use text::Out;

// The length of the block, where one was written; and where the reply ends.
#[derive(Clone, Copy, PartialEq, Eq, Debug)]
pub struct Reply {
    pub length: Option<u32>,
    pub end: usize,
}

// A byte of a field as it is shown.
#[tactic(auto, unfolding(crate::specs::Lines::shown_byte, notation::specs::Choice::choices))]
fn shown_byte(c: u8) -> u8
    ensures { result ≡ shown_byte c }
{
    if c.is_ascii_graphic() { c } else { b'?' }
}

// A field as it is shown: at most its first 40 bytes.
fn put_shown(out: &mut Out<'_>, field: &[u8])
    ensures { Puts out.old (shown field.now) out.new }
{
    for c in field.iter().take(40) {
        out.put(&[shown_byte(*c)]);
    }
    if field.len() > 40 {
        out.put(b"..");
    }
}

// A text, and then field k of a line.
fn put_field(out: &mut Out<'_>, before: &[u8], line: &[u8], k: usize)
    ensures { Puts out.old (before.now ++ shown (get_or (fields line.now) k [])) out.new }
{
    out.put(before);
    put_shown(out, record_fields::field(line, k));
}

#[tactic(auto, unfolding(crate::specs::Lines::verb, notation::specs::Choice::choices))]
fn verb(n: usize) -> &'static [u8]
    ensures { result.now ≡ verb n }
{
    if n == 1 { b"is" } else { b"are" }
}

// What is wrong with a line whose word has n numbers, and which has m.
fn put_count(out: &mut Out<'_>, line: &[u8], n: usize, m: usize)
    ensures { Puts out.old (cause_text (Err (Fault.WrongCount n m)) (fields line.now)) out.new }
{
    put_shown(out, record_fields::field(line, 0));
    out.put(b" has ");
    out.put_decimal(n as u64);
    out.put(b" numbers, here ");
    out.put(verb(m));
    out.put(b" ");
    out.put_decimal(m as u64);
}

// What is wrong with a line.
fn put_cause(out: &mut Out<'_>, fault: Fault, line: &[u8])
    ensures { Puts out.old (cause_text (Err fault) (fields line.now)) out.new }
{
    match fault {
        Fault::UnknownWord => put_field(out, b"not process, section or region: ", line, 0),
        Fault::WrongCount(n, m) => put_count(out, line, n, m),
        Fault::NotNumber(k) => put_field(out, b"not a number: ", line, k),
        Fault::TooLarge(k) => put_field(out, b"over 32 bits: ", line, k),
    }
}

fn put_fault(out: &mut Out<'_>, number: usize, fault: Fault, line: &[u8])
    requires { Err fault ≡ line_of line.now }
    ensures { Puts out.old (fault_line number line.now) out.new }
{
    out.put(b"line ");
    out.put_decimal(number as u64);
    out.put(b": ");
    put_cause(out, fault, line);
    out.put(b"\n");
}

// A number of things.
fn put_counted(out: &mut Out<'_>, n: usize, word: &[u8], ending: &[u8])
    ensures { Puts out.old (counted n word.now ending.now) out.new }
{
    out.put_decimal(n as u64);
    out.put(word);
    if n != 1 {
        out.put(ending);
    }
}

// How many records of each kind are held.
fn put_counts(out: &mut Out<'_>, read: Read)
    ensures { Puts out.old (counts_text (read.processes / 4) (read.sections / 4) (read.regions / 2)) out.new }
{
    put_counted(out, read.processes / 4, b" process", b"es");
    out.put(b", ");
    put_counted(out, read.sections / 4, b" section", b"s");
    out.put(b", ");
    put_counted(out, read.regions / 2, b" region", b"s");
}

fn put_block(out: &mut Out<'_>, length: u32, read: Read)
    ensures { Puts out.old (block_line length (read.processes / 4) (read.sections / 4) (read.regions / 2)) out.new }
{
    out.put(b"block ");
    out.put_decimal(u64::from(length));
    out.put(b" bytes: ");
    put_counts(out, read);
    out.put(b"\n");
}

// What was written from the records that are held, or the refusal.
#[tactic(auto, using(refusals::proofs::Given::number_given), unfolding(refusals::specs::Answers::written_of, notation::specs::Choice::choices))]
fn put_written(out: &mut Out<'_>, written: Result<u32, Refused>, read: Read)
    ensures { Puts out.old (held_line read (written_of written)) out.new }
{
    match written {
        Ok(length) => put_block(out, length, read),
        Err(e) => refusal_line::put_line(out, e),
    }
}

// Writes the block of a text's records at the start of `block`, and puts the reply at the start of `reply`, as much of it as there is
// room for. Where a line is at fault, and in a refusal, the bytes of `block` stay. Of each kind one record more is held than a block
// may have, and none beyond: 21 is drawn all the same.
#[tactic(auto, using(crate::proofs::Held::held_take, crate::proofs::Replies::fault_is))]
pub fn write_from_text(text: &[u8], block: &mut [u8], reply: &mut [u8]) -> Reply
    ensures { (result.length ≡ length_from text.now (length block.old))
        × (block.new ≡ buffer_from text.now block.old)
        × Appended reply.old 0 (reply_to text.now (length block.old)) reply.new result.end }
{
    let mut processes = [0u32; 68];
    let mut sections = [0u32; 260];
    let mut regions = [0u32; 66];
    let read = record_texts::read_records(text, &mut processes, &mut sections, &mut regions);
    let mut out = Out::new(reply);
    if let Some(fault) = read.fault {
        let line = record_texts::line_at(text, read.lines);
        put_fault(&mut out, read.lines + 1, fault, line);
        return Reply {
            length: None,
            end: out.end,
        };
    }
    let written = block_writer::write_block(
        &processes[..read.processes],
        &sections[..read.sections],
        &regions[..read.regions],
        block,
    );
    put_written(&mut out, written, read);
    Reply {
        length: written.ok(),
        end: out.end,
    }
}
