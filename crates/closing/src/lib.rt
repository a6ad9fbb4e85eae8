// How the report closes: every stored bit is set by the rules; then the line of the counts, and the lines of the findings, as many at a
// time as find room.
#![tactic(auto)]

ghost use Rattle.std.specs.Prelude.{◌≡◌, true, ◌*◌, ◌≤◌, length};
ghost use Rattle.model.specs.Registry.{rebuilt};
ghost use Rattle.formed.specs.Registry.{registry_in, image, well_formed};
ghost use Rattle.steps.specs.MemoryStep.{memory_step};
ghost use Rattle.model.specs.Calls.{ask, list_findings};
ghost use Rattle.findings.specs.Steps.{cursor_place};
ghost use Rattle.sheets.specs.Told.{Tells};
ghost use Rattle.sheets.specs.Closing.{count_step, listing, list_step};

use findings::Cursor;
use sheets::{State, Told};
use store::Words;

// Sets every stored bit, and puts the counts.
// Kept: the room for a line is asked here and of each step: a type for the buffer would be taken apart wherever its rest is lent. And out
// of line, as `intake::feed_blocks`.
#[inline(never)]
#[tactic(auto, unfolding(sheets::specs::Closing::count_step))]
pub fn tell_counts(memory: &mut Words, out: &mut [u8]) -> Told
    requires { (well_formed memory.old ≡ true) × (128 ≤ length out.old) }
    ensures memory_after { memory.new ≡ image (rebuilt (registry_in memory.old)) }
    ensures tells { Tells (count_step memory.new) out.old out.new result }
{
    whole::rebuild(memory);
    let counts = queries::counts_in(memory);
    Told {
        state: State::Listing(Cursor {
            kind: 0,
            a: 0,
            b: 0,
        }),
        put: text::put_counts(out, counts.containers, counts.policies, counts.pairs),
    }
}

// Puts the lines of the findings after the cursor, as many as are wanted.
fn tell_wanted(memory: &Words, out: &mut [u8], cursor: Cursor, wanted: usize) -> Told
    requires { (well_formed memory.now ≡ true) × (10 * wanted ≤ length out.old) }
    ensures { Tells (listing wanted (memory_step memory.now (ask (list_findings (cursor_place cursor) wanted))).1) out.old out.new result }
{
    let lines = listing_lines::put_lines(memory, cursor, out, wanted);
    match lines.next {
        Some(next) => Told {
            state: State::Listing(next),
            put: lines.put,
        },
        None => Told {
            state: State::Finished,
            put: lines.put,
        },
    }
}

// Puts the lines of the findings after the cursor, as many as find room.
// Kept: out of line, as above.
#[inline(never)]
#[tactic(auto, unfolding(sheets::specs::Closing::list_step))]
pub fn tell_findings(memory: &Words, out: &mut [u8], cursor: Cursor) -> Told
    requires { (well_formed memory.now ≡ true) × (128 ≤ length out.old) }
    ensures { Tells (list_step memory.now (length out.old) cursor) out.old out.new result }
{
    let lines = cuts::lines_in(out.len());
    tell_wanted(memory, out, cursor, lines)
}
