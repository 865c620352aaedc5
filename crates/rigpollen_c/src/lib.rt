// The entries for C, of the static library: each stands here and in `rigpollen`, since a crate is a library or a static library. A slice
// passes as a pointer and then a length.
#![tactic(auto)]

ghost use Rattle.std.specs.Prelude.{◌≡◌, length};
ghost use Rattle.std.proofs.lemmas.List.Edits.{sets};
ghost use Rattle.rules.specs.Lent.{image_of, memory_of, area_of};
ghost use Rattle.rules.specs.Load.{answer_on, answer as answer_of, ram_after};
ghost use Rattle.rules.specs.Reader.{walk, page_at};
ghost use Rattle.rules.specs.Writer.{records_in, written, buffer_after};
ghost use Rattle.stores.specs.Writes.{copied};
ghost use Rattle.rigpollen.specs.Words.{answer_words, process_number, process_words, entry_number, entry_words, written_words};

// Loads the block's programs into RAM, at physical address `ram_start`, from flash, at `flash_start`; what can be used straight from flash
// is mapped there. Returns 0, or the number of the refusal, which leaves RAM as it came.
#[unsafe(no_mangle)]
pub extern "C" fn rigpollen_load(
    block: &[u8],
    flash: &[u8],
    flash_start: u32,
    ram: &mut [u8],
    ram_start: u32,
) -> u32
    ensures { (result ≡ (answer_of (image_of block.now flash_start flash.now) (memory_of ram_start ram.old)).number)
        × (ram.new ≡ ram_after (image_of block.now flash_start flash.now) (memory_of ram_start ram.old)) }
{
    rigpollen::rigpollen_load(block, flash, flash_start, ram, ram_start)
}

// The same load. Number, place, pages taken, pages free, tracker pages and offset are put into `answer`, as many as fit; what lies
// beyond stays.
#[unsafe(no_mangle)]
pub extern "C" fn rigpollen_answer(
    block: &[u8],
    flash: &[u8],
    flash_start: u32,
    ram: &mut [u8],
    ram_start: u32,
    answer: &mut [u32],
) -> u32
    ensures { (result ≡ (answer_of (image_of block.now flash_start flash.now) (memory_of ram_start ram.old)).number)
        × (ram.new ≡ ram_after (image_of block.now flash_start flash.now) (memory_of ram_start ram.old))
        × (answer.new ≡ sets answer.old 0 (answer_words (answer_of (image_of block.now flash_start flash.now) (memory_of ram_start ram.old)))) }
{
    rigpollen::rigpollen_answer(block, flash, flash_start, ram, ram_start, answer)
}

// The answer that the load would give on RAM of `ram_length` bytes from `ram_start` on, with no RAM lent. It is put into `answer` as
// `rigpollen_answer` puts it.
#[unsafe(no_mangle)]
pub extern "C" fn rigpollen_check(
    block: &[u8],
    flash: &[u8],
    flash_start: u32,
    ram_length: usize,
    ram_start: u32,
    answer: &mut [u32],
) -> u32
    ensures { (result ≡ (answer_on (image_of block.now flash_start flash.now) (area_of ram_start ram_length)).number)
        × (answer.new ≡ sets answer.old 0 (answer_words (answer_on (image_of block.now flash_start flash.now) (area_of ram_start ram_length)))) }
{
    rigpollen::rigpollen_check(block, flash, flash_start, ram_length, ram_start, answer)
}

// What a process starts with, where the block boots on RAM of `ram_length` bytes from `ram_start` on: its satp word, entry point and
// stack pointer are put into `words`, as many as fit, as the process list has them. Returns 0; else the number of the refusal, or 31
// where there is no such process, and `words` stays.
#[unsafe(no_mangle)]
pub extern "C" fn rigpollen_process(
    block: &[u8],
    flash: &[u8],
    flash_start: u32,
    ram_length: usize,
    ram_start: u32,
    process: u32,
    words: &mut [u32],
) -> u32
    ensures { (result ≡ process_number (image_of block.now flash_start flash.now) (area_of ram_start ram_length) process)
        × (words.new ≡ sets words.old 0 (process_words (image_of block.now flash_start flash.now) (area_of ram_start ram_length) process)) }
{
    rigpollen::rigpollen_process(
        block,
        flash,
        flash_start,
        ram_length,
        ram_start,
        process,
        words,
    )
}

// Walks the tables from the root at physical page number `root` at an address: 0 absent, 1 reserved, 2 a page. Of a page its
// rights (read 1, write 2, execute 4, user 8) and its physical page number are put into `page`, as many as fit; otherwise `page`
// stays.
#[unsafe(no_mangle)]
pub extern "C" fn rigpollen_walk(
    ram: &[u8],
    ram_start: u32,
    root: u32,
    address: u32,
    page: &mut [u32],
) -> u32
    ensures { (result ≡ entry_number (walk (memory_of ram_start ram.now) root address))
        × (page.new ≡ sets page.old 0 (entry_words (walk (memory_of ram_start ram.now) root address))) }
{
    rigpollen::rigpollen_walk(ram, ram_start, root, address, page)
}

// The bytes of the page at an address, by way of a root table in RAM, are put into `bytes`, as many as fit; what lies beyond stays. They
// are RAM's if the page is wholly in RAM, else flash's if it is wholly in flash. Returns 4,096, where fewer fit too; else 0, and
// `bytes` stays: there is no page, or it lies wholly in neither.
#[unsafe(no_mangle)]
pub extern "C" fn rigpollen_page<'a>(
    ram: &'a [u8],
    ram_start: u32,
    flash: &'a [u8],
    flash_start: u32,
    root: u32,
    address: u32,
    bytes: &mut [u8],
) -> usize
    ensures { (result ≡ length (page_at (memory_of ram_start ram.now) (memory_of flash_start flash.now) root address))
        × (bytes.new ≡ copied bytes.old 0 (page_at (memory_of ram_start ram.now) (memory_of flash_start flash.now) root address)) }
{
    rigpollen::rigpollen_page(ram, ram_start, flash, flash_start, root, address, bytes)
}

// Writes the boot block of these records to the start of `buffer`; bytes beyond it stay. Number, place, length and offset are put into
// `answer`, as many as fit; what lies beyond stays. Returns 0; else the number of the refusal, which leaves `buffer` as it came.
#[unsafe(no_mangle)]
pub extern "C" fn rigpollen_write_block(
    processes: &[u32],
    sections: &[u32],
    regions: &[u32],
    buffer: &mut [u8],
    answer: &mut [u32],
) -> u32
    ensures { (result ≡ (written (records_in processes.now sections.now regions.now) (length buffer.old)).number)
        × (buffer.new ≡ buffer_after (records_in processes.now sections.now regions.now) buffer.old)
        × (answer.new ≡ sets answer.old 0 (written_words (written (records_in processes.now sections.now regions.now) (length buffer.old)))) }
{
    rigpollen::rigpollen_write_block(processes, sections, regions, buffer, answer)
}
