// The refusals of 01 and 02, by what draws them, and what a call answers: success with its values, or one refusal.
#![tactic(auto)]

ghost use Rattle.std.specs.Prelude.{◌≡◌};
ghost use Rattle.refusals.specs.Numbers.{number_of};
ghost use Rattle.refusals.specs.Answers.{refused_at};

#[derive(Clone, Copy, PartialEq, Eq, Debug)]
pub enum Refusal {
    RamUnfit = 1,
    BlockTooShort = 2,
    FormatUnknown = 3,
    CountsOutOfBounds = 4,
    LayoutNotTight = 5,
    ProcessUnfit = 6,
    SectionUnfit = 7,
    SectionMisplaced = 8,
    SectionPastFlash = 9,
    EntryPointOutside = 10,
    RegionUnfit = 11,
    RamTooSmall = 12,
    FlashUnfit = 13,
    // Of the block writer alone.
    ListsUnfit = 21,
    BufferTooShort = 22,
}

impl Refusal {
    // The number that the papers give it.
    pub fn number(self) -> u32
        ensures { result ≡ number_of self }
    {
        self as u32
    }
}

// A refusal, its place, which is the record it was found at, counted from 0, and that record's byte offset in the block; both 0 where it
// is of no record.
#[derive(Clone, Copy, PartialEq, Eq, Debug)]
pub struct Refused {
    pub refusal: Refusal,
    pub place: u32,
    pub offset: u32,
}

impl Refused {
    // A refusal that is of no record.
    pub fn whole(refusal: Refusal) -> Self
        ensures { result ≡ record { refusal = refusal; place = 0; offset = 0 } }
    {
        Refused {
            refusal,
            place: 0,
            offset: 0,
        }
    }
}

// What the check of one record gives: the refusal that it draws, if it draws one, and the record's byte offset in the block, which
// `record_check` of the rules has in both cases.
#[derive(Clone, Copy, PartialEq, Eq, Debug)]
pub struct RecordRefusal {
    pub refusal: Option<Refusal>,
    pub offset: usize,
}

impl RecordRefusal {
    // The refusal of record `place`; none where none is drawn. The offset is told modulo 2^32.
    #[tactic(auto, unfolding(crate::specs::Answers::refused_at))]
    pub fn at(self, place: u32) -> Option<Refused>
        ensures { result ≡ refused_at self place }
    {
        self.refusal.map(|refusal| Refused {
            refusal,
            place,
            offset: (self.offset % 0x1_0000_0000) as u32,
        })
    }
}

// The pages of a load: taken, free, and the page tracker's.
#[derive(Clone, Copy, PartialEq, Eq, Debug)]
pub struct Boot {
    pub taken: u32,
    pub free: u32,
    pub tracker: u32,
}
