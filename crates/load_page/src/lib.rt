// The bytes of pages. A page is any lent bytes: the loader lends 4,096 of RAM.
#![tactic(auto)]

ghost use Rattle.std.specs.Prelude.{◌≡◌, length, get_or};
ghost use Rattle.notation.specs.Lists.{tab};
ghost use Rattle.load_page.specs.Pages.{page_of};

use block_records::Section;

// Page i of a section: the section's bytes in it, at the virtual address's sub-page offset, and zero around them. With NOCOPY all
// of it is zero. Bytes past the end of flash count as 0.
pub fn section_page(page: &mut [u8], section: Section, flash: &[u8], i: u32)
    ensures { page.new ≡ tab (length page.old) (page_of section flash.now i) }
{
    if section.no_copy {
        stores::clear(page);
        return;
    }
    let offset = section.address as usize % 4096;
    let first = 4096 * i as usize;
    let bytes = slices::part(flash, section.flash_offset as usize, section.size as usize);
    // In the first page the copy starts at the offset; in a later one it skips the bytes of the pages before.
    let rest = slices::tail(bytes, first.saturating_sub(offset));
    stores::copy_and_clear(page, offset.saturating_sub(first), rest);
}

// The copy of the block, as much of it as fits, and zero after it.
pub fn block_page(page: &mut [u8], block: &[u8])
    ensures { page.new ≡ tab (length page.old) (λ k. get_or block.now k 0) }
{
    stores::copy_and_clear(page, 0, block);
}
