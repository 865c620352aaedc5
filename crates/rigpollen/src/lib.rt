// The loader, the reader and the block writer as the entries for C have them: a number is returned, and words are put into what is lent.
// `rigpollen_c` hands each on to C.
#![tactic(auto)]

ghost use Rattle.std.specs.Prelude.{[], ◌≡◌, ◌<◌, length, slice_index, MatchResult};
ghost use Rattle.std.proofs.lemmas.List.Edits.{sets};
ghost use Rattle.rules.specs.Lent.{image_of, memory_of, area_of};
ghost use Rattle.rules.specs.Load.{answer_on, answer as answer_of, ram_after};
ghost use Rattle.rules.specs.Reader.{walk, page_at};
ghost use Rattle.rules.specs.Writer.{records_in, written, buffer_after};
ghost use Rattle.lent.specs.Lent.{image as lent_image};
ghost use Rattle.refusals.specs.Answers.{answer_of as full_answer_of, written_of};
ghost use Rattle.stores.specs.Writes.{copied};
ghost use Rattle.rigpollen.specs.Words.{answer_words, not_started_number, process_number, process_words, rights_word, entry_number, entry_words, written_words};
ghost use Rattle.rigpollen.specs.declared.NotStarted.TheVariants.{Refused};

use lent::{Image, Memory};
use refusals::{Boot, Refused};
use types::{Area, Entry, PhysPage, Rights};

// The number for a process that there is not.
const NO_PROCESS: u32 = 31;

// Why a process does not start: the block is refused, or it has no such process.
#[derive(Clone, Copy, PartialEq, Eq, Debug)]
enum NotStarted {
    Refused(Refused),
    NoProcess,
}

impl NotStarted {
    // Its number for C.
    fn number(self) -> u32
        ensures { result ≡ not_started_number self }
    {
        match self {
            NotStarted::Refused(e) => e.refusal.number(),
            NotStarted::NoProcess => NO_PROCESS,
        }
    }
}

impl From<Refused> for NotStarted {
    ghost from_gives = { λ e r. r ≡ Refused e };

    fn from(e: Refused) -> NotStarted {
        NotStarted::Refused(e)
    }
}

// Puts words into a lent slice from its start on, as many as fit. (By an index: RV32's library has no `copy_from_slice`
// and no method of a slice's iterator, D166. `stores` copies bytes alone.)
fn put_words(to: &mut [u32], words: &[u32])
    ensures { to.new ≡ sets to.old 0 words.now }
{
    for i in 0..words.len().min(to.len()) {
        to[i] = words[i];
    }
}

// The same of an answer's words, of which the first is the number.
fn tell(answer: &mut [u32], words: &[u32]) -> u32
    requires { 0 < length words.now }
    ensures number { result ≡ slice_index words.now 0 }
    ensures words { answer.new ≡ sets answer.old 0 words.now }
{
    put_words(answer, words);
    words[0]
}

// The words of a full answer.
#[tactic(auto, unfolding(refusals::specs::Answers::answer_of, rules::specs::Load::refusal_answer, rules::specs::Refusals::refused))]
fn answer_words(answer: Result<Boot, Refused>) -> [u32; 6]
    ensures { result ≡ answer_words (full_answer_of answer) }
{
    match answer {
        Ok(boot) => [0, 0, boot.taken, boot.free, boot.tracker, 0],
        Err(e) => [e.refusal.number(), e.place, 0, 0, 0, e.offset],
    }
}

// The words of the writer's answer.
#[tactic(auto, unfolding(refusals::specs::Answers::written_of))]
fn written_words(answer: Result<u32, Refused>) -> [u32; 4]
    ensures { result ≡ written_words (written_of answer) }
{
    match answer {
        Ok(length) => [0, 0, length, 0],
        Err(e) => [e.refusal.number(), e.place, 0, e.offset],
    }
}

// Loads the block's programs into RAM, at physical address `ram_start`, from flash, at `flash_start`; what can be used straight from flash
// is mapped there. Returns 0, or the number of the refusal, which leaves RAM as it came.
pub fn rigpollen_load(
    block: &[u8],
    flash: &[u8],
    flash_start: u32,
    ram: &mut [u8],
    ram_start: u32,
) -> u32
    ensures { (result ≡ (answer_of (image_of block.now flash_start flash.now) (memory_of ram_start ram.old)).number)
        × (ram.new ≡ ram_after (image_of block.now flash_start flash.now) (memory_of ram_start ram.old)) }
{
    let image = Image::new(block, flash, flash_start);
    answer_words(loader::load(image, ram, ram_start))[0]
}

// The same load. Number, place, pages taken, pages free, tracker pages and offset are put into `answer`, as many as fit; what lies
// beyond stays.
pub fn rigpollen_answer(
    block: &[u8],
    flash: &[u8],
    flash_start: u32,
    ram: &mut [u8],
    ram_start: u32,
    answer: &mut [u32],
) -> u32
    ensures { (result ≡ (answer_of (image_of block.now flash_start flash.now) (memory_of ram_start ram.old)).number)
        × (ram.new ≡ ram_after (image_of block.now flash_start flash.now) (memory_of ram_start ram.old))
        × (answer.new ≡ sets answer.old 0 (answer_words (answer_of (image_of block.now flash_start flash.now) (memory_of ram_start ram.old)))) }
{
    let image = Image::new(block, flash, flash_start);
    let full = loader::load(image, ram, ram_start);
    tell(answer, &answer_words(full))
}

// The answer that the load would give on RAM of `ram_length` bytes from `ram_start` on, with no RAM lent. It is put into `answer` as
// `rigpollen_answer` puts it.
pub fn rigpollen_check(
    block: &[u8],
    flash: &[u8],
    flash_start: u32,
    ram_length: usize,
    ram_start: u32,
    answer: &mut [u32],
) -> u32
    ensures { (result ≡ (answer_on (image_of block.now flash_start flash.now) (area_of ram_start ram_length)).number)
        × (answer.new ≡ sets answer.old 0 (answer_words (answer_on (image_of block.now flash_start flash.now) (area_of ram_start ram_length)))) }
{
    let image = Image::new(block, flash, flash_start);
    let ram = Area {
        start: ram_start,
        length: ram_length,
    };
    let full = checks::answer_on(image, ram);
    tell(answer, &answer_words(full))
}

// What process q starts with: its three words.
fn process_start(image: Image<'_>, ram: Area, q: u32) -> Result<[u32; 3], NotStarted>
    ensures { MatchResult result
        (λ words. (0 ≡ process_number (lent_image image.entry) ram q) × (words ≡ process_words (lent_image image.entry) ram q))
        (λ e. (not_started_number e ≡ process_number (lent_image image.entry) ram q) × ([] ≡ process_words (lent_image image.entry) ram q)) }
{
    checks::check(image, ram)?;
    let root = order_roots::find_root(image, ram, q).ok_or(NotStarted::NoProcess)?;
    Ok(loader::start_words(image.block, q, root))
}

// What a process starts with, where the block boots on RAM of `ram_length` bytes from `ram_start` on: its satp word, entry point and
// stack pointer are put into `words`, as many as fit, as the process list has them. Returns 0; else the number of the refusal, or 31
// where there is no such process, and `words` stays.
pub fn rigpollen_process(
    block: &[u8],
    flash: &[u8],
    flash_start: u32,
    ram_length: usize,
    ram_start: u32,
    process: u32,
    words: &mut [u32],
) -> u32
    ensures { (result ≡ process_number (image_of block.now flash_start flash.now) (area_of ram_start ram_length) process)
        × (words.new ≡ sets words.old 0 (process_words (image_of block.now flash_start flash.now) (area_of ram_start ram_length) process)) }
{
    let image = Image::new(block, flash, flash_start);
    let ram = Area {
        start: ram_start,
        length: ram_length,
    };
    match process_start(image, ram, process) {
        Ok(start) => {
            put_words(words, &start);
            0
        }
        Err(e) => e.number(),
    }
}

// A page's rights as one word.
#[tactic(auto, unfolding(crate::specs::Words::rights_word, notation::specs::Choice::choose))]
fn rights_word(t: Rights) -> u32
    ensures { result ≡ rights_word t }
{
    u32::from(t.read) + 2 * u32::from(t.write) + 4 * u32::from(t.execute) + 8 * u32::from(t.user)
}

// What the walk answered.
fn tell_entry(entry: Entry, page: &mut [u32]) -> u32
    ensures { (result ≡ entry_number entry) × (page.new ≡ sets page.old 0 (entry_words entry)) }
{
    match entry {
        Entry::Absent | Entry::Pointer(_) => 0,
        Entry::Reserved => 1,
        Entry::Page(t, p) => {
            put_words(page, &[rights_word(t), p.0]);
            2
        }
    }
}

// Walks the tables from the root at physical page number `root` at an address: 0 absent, 1 reserved, 2 a page. Of a page its
// rights (read 1, write 2, execute 4, user 8) and its physical page number are put into `page`, as many as fit; otherwise `page`
// stays.
pub fn rigpollen_walk(ram: &[u8], ram_start: u32, root: u32, address: u32, page: &mut [u32]) -> u32
    ensures { (result ≡ entry_number (walk (memory_of ram_start ram.now) root address))
        × (page.new ≡ sets page.old 0 (entry_words (walk (memory_of ram_start ram.now) root address))) }
{
    let ram = Memory {
        start: ram_start,
        bytes: ram,
    };
    tell_entry(sv32_reader::walk(ram, PhysPage(root), address), page)
}

// The bytes of the page at an address, by way of a root table in RAM, are put into `bytes`, as many as fit; what lies beyond stays. They
// are RAM's if the page is wholly in RAM, else flash's if it is wholly in flash. Returns 4,096, where fewer fit too; else 0, and
// `bytes` stays: there is no page, or it lies wholly in neither.
pub fn rigpollen_page<'a>(
    ram: &'a [u8],
    ram_start: u32,
    flash: &'a [u8],
    flash_start: u32,
    root: u32,
    address: u32,
    bytes: &mut [u8],
) -> usize
    ensures { (result ≡ length (page_at (memory_of ram_start ram.now) (memory_of flash_start flash.now) root address))
        × (bytes.new ≡ copied bytes.old 0 (page_at (memory_of ram_start ram.now) (memory_of flash_start flash.now) root address)) }
{
    let ram = Memory {
        start: ram_start,
        bytes: ram,
    };
    let flash = Memory {
        start: flash_start,
        bytes: flash,
    };
    let part = sv32_pages::page(ram, flash, PhysPage(root), address);
    stores::copy_in(bytes, 0, part);
    part.len()
}

// Writes the boot block of these records to the start of `buffer`; bytes beyond it stay. Number, place, length and offset are put into
// `answer`, as many as fit; what lies beyond stays. Returns 0; else the number of the refusal, which leaves `buffer` as it came.
pub fn rigpollen_write_block(
    processes: &[u32],
    sections: &[u32],
    regions: &[u32],
    buffer: &mut [u8],
    answer: &mut [u32],
) -> u32
    ensures { (result ≡ (written (records_in processes.now sections.now regions.now) (length buffer.old)).number)
        × (buffer.new ≡ buffer_after (records_in processes.now sections.now regions.now) buffer.old)
        × (answer.new ≡ sets answer.old 0 (written_words (written (records_in processes.now sections.now regions.now) (length buffer.old)))) }
{
    let full = block_writer::write_block(processes, sections, regions, buffer);
    tell(answer, &written_words(full))
}
