// The answer to a load: the first of 01's refusals, in 01's order, that is given, or the counts of pages. What is lent here is only read.
#![tactic(auto, unfolding(rules::specs::Refusals::refusal_rules, notation::specs::Choice::choose, refusals::specs::Answers::verdict_of))]

ghost use Rattle.std.specs.Prelude.{[], ◌∷◌, ◌≡◌, ◌≤◌, ◌<◌, ℕ, length};
ghost use Rattle.rules.specs.Answers.{RecordCheck};
ghost use Rattle.rules.specs.Block.{process_count};
ghost use Rattle.rules.specs.Refusals.{whole, accepted, first_record, first_refusal, lent_checks, header_checks, verdict};
ghost use Rattle.rules.specs.Load.{answer_on};
ghost use Rattle.lent.specs.Lent.{image as image_of};
ghost use Rattle.refusals.specs.Numbers.{number_of};
ghost use Rattle.refusals.specs.Answers.{check_of, verdict_of, answer_of};
ghost use Rattle.xip_sections.specs.Marks.{marked};
ghost use Rattle.checks.specs.Scan.{Counted, record_checks, checks_before12};
ghost use Rattle.checks.specs.Room.{room_answer, marked_answer, marks_after};

use check_header::{
    block_too_short, counts_out_of_bounds, flash_unfit, format_unknown, layout_not_tight, ram_unfit,
};
use check_processes::{check_entry_point, check_process};
use check_regions::check_region;
use check_sections::check_section;
use lent::{Image, Placed};
use refusals::{Boot, RecordRefusal, Refusal, Refused};
use types::Area;
use xip_sections::MarkedBlock;

// A refusal that is of no record, where it is given.
fn refuse_if(given: bool, refusal: Refusal) -> Result<(), Refused>
    ensures { verdict_of result ≡ first_refusal (whole (number_of refusal) given ∷ []) }
{
    if given {
        Err(Refused::whole(refusal))
    } else {
        Ok(())
    }
}

// The first refusal that `check` gives among records 0 to n - 1, whose offsets are numbers of 32 bits.
fn refuse_records<F: Fn(u32) -> RecordRefusal>(n: u32, check: F) -> Result<(), Refused>
    requires callable { F.IsAlwaysCallable check }
    requires near { (i : ℕ) (r : _) → i < n → F.post check i r → r.offset < 0x1_0000_0000 }
    ensures { (f : ℕ → RecordCheck) → ((i : ℕ) (r : _) → i < n → F.post check i r → check_of r ≡ f i) → verdict_of result ≡ first_record f 0 n accepted }
{
    for i in 0..n {
        if let Some(refused) = check(i).at(i) {
            return Err(refused);
        }
    }
    Ok(())
}

// Refusals 1 and 13, in order.
fn check_lent(flash: Area, ram: Area) -> Result<(), Refused>
    ensures { verdict_of result ≡ first_refusal (lent_checks flash ram) }
{
    refuse_if(ram_unfit(ram), Refusal::RamUnfit)?;
    refuse_if(flash_unfit(flash, ram), Refusal::FlashUnfit)
}

// Refusals 2 to 5, in order.
fn check_layout(block: &[u8]) -> Result<(), Refused>
    ensures { verdict_of result ≡ first_refusal (header_checks block.now) }
{
    refuse_if(block_too_short(block), Refusal::BlockTooShort)?;
    refuse_if(format_unknown(block), Refusal::FormatUnknown)?;
    refuse_if(counts_out_of_bounds(block), Refusal::CountsOutOfBounds)?;
    refuse_if(layout_not_tight(block), Refusal::LayoutNotTight)
}

// Refusals 6 to 11, in order.
fn check_records(placed: Placed<'_>) -> Result<(), Refused>
    requires { Counted placed.block.now }
    ensures { verdict_of result ≡ first_refusal (record_checks placed.entry.block.now placed.entry.flash placed.entry.ram) }
{
    let block = placed.block;
    let processes = block_header::process_count(block);
    let sections = block_header::section_count(block);
    let regions = block_header::region_count(block);
    refuse_records(processes, |i| check_process(block, i))?;
    refuse_records(sections, |n| check_section(block, placed.flash.length, n))?;
    refuse_records(processes, |i| check_entry_point(block, i))?;
    refuse_records(regions, |i| check_region(placed, i))
}

// All refusals but 12, in order.
fn check_before_12(placed: Placed<'_>) -> Result<(), Refused>
    ensures { verdict_of result ≡ first_refusal (checks_before12 placed.entry.block.now placed.entry.flash placed.entry.ram) }
{
    check_lent(placed.flash, placed.ram)?;
    check_layout(placed.block)?;
    check_records(placed)
}

// The answer where all but 12 are not given, for RAM of `pages` pages: refusal 12, or a boot. The pages needed are the place after all
// tables.
fn room_answer(block: &MarkedBlock, pages: u32) -> Result<Boot, Refused>
    requires { (pages ≤ 4096) × (process_count block.now.bytes.now ≤ 16) }
    ensures { answer_of result ≡ room_answer block.now.bytes.now (marked block.now.xip.now) pages }
{
    let after_all = block_header::process_count(block.bytes) + 1;
    let needed = order_places::root_place(block, pages, after_all);
    if pages < needed {
        return Err(Refused::whole(Refusal::RamTooSmall));
    }
    let tracker = order_tracker::tracker_pages(block.bytes, pages) as u32;
    Ok(Boot {
        taken: needed,
        free: pages - needed,
        tracker,
    })
}

// The answer to a load of `image` into RAM that lies so. Where none but 12 is given, `xip` gets the marks of the sections that are used in
// place, as many as it has room for, and the pages are counted by them: a section past the marks counts as one that takes RAM. A block
// that passes has 64 sections at most, so that with room for 64 marks the answer is `answer_on`.
pub fn mark_and_answer(image: Image<'_>, ram: Area, xip: &mut [u8]) -> Result<Boot, Refused>
    ensures answer { answer_of result ≡ marked_answer (image_of image.entry) ram (length xip.old) }
    ensures marks { xip.new ≡ marks_after (image_of image.entry) ram xip.old }
{
    let placed = Placed {
        block: image.block,
        flash: Area::from(image.flash),
        ram,
    };
    check_before_12(placed)?;
    xip_sections::mark_sections(image.block, image.flash.bytes, xip);
    let block = MarkedBlock {
        bytes: image.block,
        xip,
    };
    room_answer(&block, (ram.length / 4096) as u32)
}

// The same answer, with marks of its own. (The image and RAM's area are two parameters here as in the rules' `answer_on` and `verdict`.)
#[tactic(auto, using(crate::proofs::Answers::marked_answer_is))]
pub fn answer_on(image: Image<'_>, ram: Area) -> Result<Boot, Refused>
    ensures { answer_of result ≡ answer_on (image_of image.entry) ram }
{
    let mut xip = [0u8; 64];
    mark_and_answer(image, ram, &mut xip)
}

// 01's verdict on `image` and RAM that lies so.
#[tactic(auto, using(crate::proofs::Answers::told_err, crate::proofs::Answers::told_ok))]
pub fn check(image: Image<'_>, ram: Area) -> Result<(), Refused>
    ensures { verdict_of result ≡ verdict (image_of image.entry) ram }
{
    answer_on(image, ram)?;
    Ok(())
}
