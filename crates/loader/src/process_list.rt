// The process list: three words for each process: satp, entry point, stack pointer.
ghost use Rattle.std.specs.Prelude.{◌≡◌, ◌+◌, ◌-◌, ◌*◌, ◌≤◌, ◌<◌, length};
ghost use Rattle.notation.specs.Lists.{tab};
ghost use Rattle.rules.specs.Block.{entry_point_of};
ghost use Rattle.rules.specs.Entries.{satp_of};
ghost use Rattle.rules.specs.Contents.{stack_pointer};
ghost use Rattle.word_stores.specs.Words.{with_word};
ghost use Rattle.writing.specs.Pages.{put};
ghost use Rattle.loader.specs.Planned.{root_at, left_at_list, list_bytes};

use crate::plan::Plan;
use crate::start_words;
use page_allocator::{PageAllocator, page_at};
use types::PhysPage;

// The three words of process q, whose root table is the physical page `root`.
fn put_process(page: &mut [u8], block: &[u8], q: u32, root: PhysPage)
    requires { (1 ≤ q) × (q ≤ 16) × (root.0 < 0x10_0000) }
    ensures { page.new ≡ with_word (with_word (with_word page.old
        (12 * (q - 1)) (satp_of q root.0))
        (12 * (q - 1) + 4) (entry_point_of block.now q))
        (12 * (q - 1) + 8) (stack_pointer q) }
{
    let [satp, entry_point, stack_pointer] = start_words(block, q, root);
    let at = 12 * (q as usize - 1);
    word_stores::put_word(page, at, satp);
    word_stores::put_word(page, at + 4, entry_point);
    word_stores::put_word(page, at + 8, stack_pointer);
}

// The whole list. `first` is the place of the kernel's root table in the order of pages; each root is followed by the leaf
// tables of its process.
fn list_processes(page: &mut [u8], plan: &Plan, first: u32)
    requires { (first ≡ root_at plan.now 1) × (192 ≤ length page.old) }
    ensures { page.new ≡ tab (length page.old) (list_bytes plan.now) }
{
    stores::clear(page);
    let mut place = first;
    for i in 0..block_header::process_count(plan.block.bytes) {
        put_process(page, plan.block.bytes, i + 1, page_at(plan.range, place));
        place += order_leaves::table_count(plan.block.bytes, i + 1);
    }
}

// The process list into the next page. The roots come after it and the copy of the block.
pub(crate) fn load_process_list(ram: &mut [u8], plan: &Plan, from: PageAllocator) -> PageAllocator
    requires { (from.left ≡ left_at_list plan.now) × (4096 * from.left ≤ length ram.old) }
    ensures { (result.left ≡ from.left - 1) × (ram.new ≡ put ram.old (from.left - 1) (list_bytes plan.now)) }
{
    let got = from.allocate();
    // Lent here, and not cut where RAM ends (D60): with a closure for `fill_page` that captures a plan, a proof does not reach what the
    // closure promises.
    let start = got.page.0 as usize * 4096;
    let page = &mut ram[start..start + 4096];
    list_processes(page, plan, plan.range.pages - from.left + 2);
    got.rest
}
