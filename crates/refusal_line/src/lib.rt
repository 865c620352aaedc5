// The line of a refusal, of the loader's and of the block writer's.
#![tactic(auto)]

ghost use Rattle.text.specs.Text.{Appended};
ghost use Rattle.text.specs.Puts.{Puts};
ghost use Rattle.refusals.specs.Numbers.{number_of};
ghost use Rattle.refusal_line.specs.Line.{refused_line};

use refusals::Refused;
use text::Out;

// Puts the line of these numbers.
fn put_numbers(out: &mut Out<'_>, number: u32, place: u32, offset: u32)
    ensures { Puts out.old (refused_line number place offset) out.new }
{
    out.put_two_numbers(
        b"refused ",
        u64::from(number),
        b" at ",
        u64::from(place),
        b", byte ",
    );
    out.put_decimal(u64::from(offset));
    out.put(b"\n");
}

// Puts the line, as much of it as there is room for.
pub fn put_line(out: &mut Out<'_>, refused: Refused)
    ensures { Puts out.old (refused_line (number_of refused.refusal) refused.place refused.offset) out.new }
{
    put_numbers(out, refused.refusal.number(), refused.place, refused.offset);
}

// The same of any three numbers at an index of a buffer, which may be past its end. Answers the index after the line.
pub fn put_refused(to: &mut [u8], at: usize, number: u32, place: u32, offset: u32) -> usize
    ensures { Appended to.old at (refused_line number place offset) to.new result }
{
    let end = at.min(to.len());
    let mut out = Out { buffer: to, end };
    put_numbers(&mut out, number, place, offset);
    out.end
}
