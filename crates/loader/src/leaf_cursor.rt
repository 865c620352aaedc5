// A leaf table of a process, and where a walk over them stands.
ghost use Rattle.std.specs.Prelude.{◌≡◌, true};
ghost use Rattle.rules.specs.Order.{has_leaf};
ghost use Rattle.xip_sections.specs.Marks.{marked};
ghost use Rattle.loader.specs.LeafCursor.{Passed};

use crate::plan::Share;

// A leaf table: its root slot, the first section that does not end below that slot, and the place of this section's first page in the
// order of pages.
#[derive(Clone, Copy)]
pub(crate) struct Leaf<'a> {
    pub share: Share<'a>,
    pub slot: u32,
    pub section: u32,
    pub place: u32,
    ghost here: { has_leaf share.plan.now.block.bytes.now share.q slot ≡ true },
    ghost passed: { Passed share.plan.now.block.bytes.now (marked share.plan.now.block.xip.now) share.q slot section place },
}

// The leaf tables from root slot `slot` on. The sections before `section` end below it. (The fields are a leaf's, without its fact that there
// is a table here. With one in the other a leaf's slot would be read as `leaf.at.slot` wherever it is used.)
#[derive(Clone, Copy)]
pub(crate) struct LeafCursor<'a> {
    pub share: Share<'a>,
    pub slot: u32,
    pub section: u32,
    pub place: u32,
    ghost passed: { Passed share.plan.now.block.bytes.now (marked share.plan.now.block.xip.now) share.q slot section place },
}
