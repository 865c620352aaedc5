// Places in the order of pages: how many uses stand before a use, and what page that is. A place is told as at most 65,536,
// which is past any RAM, so that any block has an answer. A block is told with the marks of the sections that are used in place.
#![tactic(auto)]

ghost use Rattle.std.specs.Prelude.{ℕ, ◌≡◌, ◌+◌, ◌-◌, ◌≤◌, ◌<◌, eqb};
ghost use Rattle.notation.specs.Choice.{choose};
ghost use Rattle.notation.specs.Lists.{sum};
ghost use Rattle.rules.specs.Block.{process_count};
ghost use Rattle.rules.specs.Order.{tracker_pages};
ghost use Rattle.order_laws.specs.Places.{process_pages, user_pages, section_place, tracker_place, tables_before, root_place};
ghost use Rattle.xip_sections.specs.Marks.{marked};
ghost use Rattle.order_places.specs.Capped.{capped};

use types::TOP_PAGES;
use xip_sections::MarkedBlock;

// The section pages of process q: fewer than 2^32 sections of at most 2^21 pages.
pub fn process_pages(block: &MarkedBlock, q: u32) -> u64
    ensures { (result ≡ process_pages block.now.bytes.now (marked block.now.xip.now) q) × (result ≤ 0x20_0000_0000_0000) }
{
    let process = block_records::read_process(block.bytes, q);
    (0..process.sections)
        .map(|j| {
            let n = process.section(j);
            let section = block_records::read_section(block.bytes, n);
            u64::from(xip_sections::pages_taken(block.xip, n, section.pages))
        })
        .sum()
}

// A sum, or 65,536 where it is larger.
fn capped_sum(a: u32, b: u64) -> u32
    requires { b ≤ 0x20_0000_0000_0000 }
    ensures { result ≡ capped (a + b) }
{
    (u64::from(a) + b).min(0x1_0000) as u32
}

// The sum of `part` at 0 to n - 1, or 65,536 where it is larger.
fn capped_total<F: Fn(u32) -> u64>(n: u32, part: F) -> u32
    requires callable { (i : ℕ) → i < n → F.pre part i }
    requires few { (i : ℕ) (r : _) → i < n → F.post part i r → r ≤ 0x20_0000_0000_0000 }
    ensures { (f : ℕ → ℕ) → ((i : ℕ) (r : _) → i < n → F.post part i r → r ≡ f i) → result ≡ capped (sum n f) }
{
    let mut total: u32 = 0;
    for i in 0..n {
        total = capped_sum(total, part(i));
    }
    total
}

// The section pages of processes 2 to n + 1.
fn user_pages(block: &MarkedBlock, n: u32) -> u32
    requires { n ≤ 0xFFFF_FFFE }
    ensures { result ≡ capped (user_pages block.now.bytes.now (marked block.now.xip.now) n) }
{
    capped_total(n, |i| process_pages(block, i + 2))
}

// How many user processes have their sections before those of process q.
fn users_before(block: &[u8], q: u32) -> u32
    ensures { (result ≡ choose (eqb q 1) (process_count block.now - 1) (q - 2)) × (result ≤ 0xFFFF_FFFE) }
{
    if q == 1 {
        return block_header::process_count(block).saturating_sub(1);
    }
    q.saturating_sub(2)
}

// The place of the first section page of process q: the kernel's sections come after those of all user processes.
pub fn section_place(block: &MarkedBlock, q: u32) -> u32
    ensures { result ≡ capped (section_place block.now.bytes.now (marked block.now.xip.now) q) }
{
    let users = users_before(block.bytes, q);
    capped_sum(TOP_PAGES, u64::from(user_pages(block, users)))
}

// The place of the first tracker page.
pub fn tracker_place(block: &MarkedBlock) -> u32
    ensures { result ≡ capped (tracker_place block.now.bytes.now (marked block.now.xip.now)) }
{
    capped_sum(section_place(block, 1), process_pages(block, 1))
}

// The tables of the first n processes.
fn tables_before(block: &[u8], n: u32) -> u32
    ensures { result ≡ capped (tables_before block.now n) }
{
    capped_total(n, |i| u64::from(order_leaves::table_count(block, i + 1)))
}

// The place of process q's root table, in RAM of `pages` pages. For the number after the last process: the place after all tables.
pub fn root_place(block: &MarkedBlock, pages: u32, q: u32) -> u32
    ensures { result ≡ capped (root_place block.now.bytes.now (marked block.now.xip.now) (tracker_pages block.now.bytes.now pages) q) }
{
    let list = capped_sum(
        tracker_place(block),
        order_tracker::tracker_pages(block.bytes, pages),
    );
    let before = tables_before(block.bytes, q.saturating_sub(1));
    capped_sum(list, 2 + u64::from(before))
}
