// The listing program's text: a load, and what 01 has the listing say of it.
#![tactic(auto)]

ghost use Rattle.std.specs.Prelude.{◌≡◌, ◌-◌, ◌/◌, ◌≤◌, eqb};
ghost use Rattle.notation.specs.Choice.{choose};
ghost use Rattle.rules.specs.Lent.{Memory, memory_area, memory_of, pages_in};
ghost use Rattle.lent.specs.Lent.{image as lent_image};
ghost use Rattle.rules.specs.Block.{process_count};
ghost use Rattle.rules.specs.InPlace.{xip_of};
ghost use Rattle.rules.specs.Order.{root_table, pages_of};
ghost use Rattle.rules.specs.Refusals.{verdict};
ghost use Rattle.rules.specs.Load.{phys_page, answer_on, ram_after};
ghost use Rattle.refusals.specs.Answers.{answer_of};
ghost use Rattle.order_laws.specs.Places.{process_pages, user_pages};
ghost use Rattle.xip_sections.specs.Marks.{marked};
ghost use Rattle.text.specs.Text.{Appended};
ghost use Rattle.text.specs.Puts.{Puts};
ghost use Rattle.report.specs.Lines.{boot_line, process_line};
ghost use Rattle.report.specs.Listing.{process_lines, listing};

use lent::Image;
use refusals::{Boot, Refused};
use text::Out;
use types::Area;
use xip_sections::MarkedBlock;

fn boot_line(out: &mut Out<'_>, pages: u64, free: u32)
    ensures { Puts out.old (boot_line pages free) out.new }
{
    out.put_two_numbers(b"boot ", pages, b" pages, ", u64::from(free), b" free\n");
}

fn process_line(out: &mut Out<'_>, q: u32, pages: u64, root: u32)
    ensures { Puts out.old (process_line q pages root) out.new }
{
    out.put_two_numbers(b"pid ", u64::from(q), b" pages ", pages, b" root ");
    out.put_hex(u64::from(root));
    out.put(b"\n");
}

// The kernel's pages: what the users' sections leave of those taken.
fn kernel_pages(block: &MarkedBlock, taken: u32) -> u64
    ensures { result ≡ taken - user_pages block.now.bytes.now (marked block.now.xip.now) (process_count block.now.bytes.now - 1) }
{
    let mut left = u64::from(taken);
    for i in 1..block_header::process_count(block.bytes) {
        left = left.saturating_sub(order_places::process_pages(block, i + 1));
    }
    left
}

// The pages of process q, where the kernel has `kernel`: a user has those that its sections take.
#[tactic(auto, unfolding(notation::specs::Choice::choose))]
fn pages_of(block: &MarkedBlock, kernel: u64, q: u32) -> u64
    ensures { result ≡ choose (eqb q 1) kernel (process_pages block.now.bytes.now (marked block.now.xip.now) q) }
{
    if q == 1 {
        kernel
    } else {
        order_places::process_pages(block, q)
    }
}

// The page number of process q's root table, where the block boots.
fn root_page(image: Image<'_>, ram: Area, q: u32) -> u32
    requires { ((verdict (lent_image image) ram).number ≡ 0) × (1 ≤ q) × (q ≤ process_count image.block.now) }
    ensures { result ≡ phys_page (lent_image image.entry).block (xip_of (lent_image image.entry)) (pages_in ram) (root_table q) }
{
    order_roots::find_root(image, ram, q).unwrap().0
}

// A line for each process, where the block boots and the kernel has `kernel` pages. `xip` marks the sections that are used in place.
fn process_lines(out: &mut Out<'_>, image: Image<'_>, xip: &[u8], ram: Area, kernel: u64)
    requires { ((verdict (lent_image image) ram).number ≡ 0)
        × (marked xip.now ≡ xip_of (lent_image image)) × (kernel ≡ pages_of image.block.now (marked xip.now) (ram.length / 4096) 1) }
    ensures { Puts out.old (process_lines (lent_image image.entry).block (xip_of (lent_image image.entry)) (pages_in ram) (process_count (lent_image image.entry).block)) out.new }
{
    let block = MarkedBlock {
        bytes: image.block,
        xip,
    };
    for i in 0..block_header::process_count(image.block) {
        let q = i + 1;
        let pages = pages_of(&block, kernel, q);
        process_line(out, q, pages, root_page(image, ram, q));
    }
}

// The listing of a load of `image` into RAM that lies so, which was answered so.
fn put_listing(out: &mut Out<'_>, image: Image<'_>, ram: Area, answer: Result<Boot, Refused>)
    requires { answer_of answer ≡ answer_on (lent_image image) ram }
    ensures { (r : Memory) → memory_area r ≡ ram → Puts out.old (listing (lent_image image.entry) r) out.new }
{
    let boot = match answer {
        Ok(boot) => boot,
        Err(e) => {
            refusal_line::put_line(out, e);
            return;
        }
    };
    boot_line(out, (ram.length / 4096) as u64, boot.free);
    let mut xip = [0u8; 64];
    xip_sections::mark_sections(image.block, image.flash.bytes, &mut xip);
    let block = MarkedBlock {
        bytes: image.block,
        xip: &xip,
    };
    let kernel = kernel_pages(&block, boot.taken);
    process_lines(out, image, &xip, ram, kernel);
}

// The same, at the start of a buffer. Answers its end there.
fn list(to: &mut [u8], image: Image<'_>, ram: Area, answer: Result<Boot, Refused>) -> usize
    requires { answer_of answer ≡ answer_on (lent_image image) ram }
    ensures { (r : Memory) → memory_area r ≡ ram → Appended to.old 0 (listing (lent_image image.entry) r) to.new result }
{
    let mut out = Out::new(to);
    put_listing(&mut out, image, ram, answer);
    out.end
}

// Loads, and puts the listing at the start of `to`, as much of it as there is room for. Answers the listing's end there.
pub fn load_listing(image: Image<'_>, ram: &mut [u8], start: u32, to: &mut [u8]) -> usize
    ensures { (ram.new ≡ ram_after (lent_image image.entry) (memory_of start ram.old))
        × Appended to.old 0 (listing (lent_image image.entry) (memory_of start ram.old)) to.new result }
{
    let area = Area {
        start,
        length: ram.len(),
    };
    let answer = loader::load(image, ram, start);
    list(to, image, area, answer)
}
