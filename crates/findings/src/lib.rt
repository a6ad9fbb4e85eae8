// The findings after any three numbers, by the entries and the stored bits of a memory: as many as a list holds, or the next one.
#![tactic(auto)]

ghost use Rattle.std.specs.Prelude.{◌≡◌, true, ◌&&◌, ◌||◌, eqb, ltb, leb, map, ◌+◌, ◌-◌, ◌*◌, ◌<◌, length};
ghost use Rattle.std.specs.Iterator.{at_most};
ghost use Rattle.bitrow.specs.Bit.{bit_at};
ghost use Rattle.bitrow.specs.Set.{meet, at_least, under};
ghost use Rattle.buffer.specs.Buffer.{Puts};
ghost use Rattle.model.specs.Findings.{next_after, walk, moved, finding_code};
ghost use Rattle.formed.specs.Registry.{model_in, bits_in, well_formed};
ghost use Rattle.findings.specs.Steps.{next_step, cursor_place, place_at};
ghost use Rattle.findings.specs.RowSteps.{RowOfKind, RowSteps};

use finding_rows::View;
use model::{Finding, Kind};
use store::Words;

// For so many findings and more, what many rows ask for is worth working out ahead.
pub const MANY: usize = 16;

// A place in the list of findings: any three numbers.
// Kept: `kind: u16`: the C interface: a cursor is C's, and may stand at any number, also where there is no kind.
#[derive(Clone, Copy)]
pub struct Cursor {
    pub kind: u16,
    pub a: u16,
    pub b: u16,
}

// How many findings were put, and the cursor moved to the last of them.
#[derive(Clone, Copy)]
pub struct Put {
    pub count: usize,
    pub cursor: Cursor,
}

// The row of a kind's findings at a slot, from the number `from` on.
#[derive(Clone, Copy)]
pub struct Row {
    pub kind: Kind,
    pub slot: usize,
    pub from: usize,
}

// The rows from a place on that can have a finding, kind after kind: those at the slots of each kind. That of the place itself is
// from the number `from` on, each later one whole.
// Kept: `kind: usize`: the rows begin where a cursor stands, which is C's: at any number, also where there is no kind.
#[derive(Clone, Copy)]
pub struct Rows<'a> {
    pub slots: &'a [[u64; 4]; 8],
    pub kind: usize,
    pub slot: usize,
    pub from: usize,
}

impl<'a> Rows<'a> {
    // The first row of the place's kind, from the place on.
    fn row_of_kind(&self) -> Option<Row>
        requires { self.now.kind < 8 }
        ensures { RowOfKind self.now result }
    {
        let kind = Kind::numbered(self.kind)?;
        let slot = row_reads::next_from(self.slots[self.kind], self.slot)?;
        let from = if slot == self.slot { self.from } else { 0 };
        Some(Row { kind, slot, from })
    }
}

impl<'a> Iterator for Rows<'a> {
    type Item = Row;

    ghost next_gives = { RowSteps };

    ghost remaining = { λ s. at_most ((8 - s.kind) * 257 + (256 - s.slot)) };

    fn next(&mut self) -> Option<Row> {
        // Kept: the place itself is stepped, since the next call goes on from it: a `for` over the kinds would count beside it.
        while self.kind < 8 {
            if let Some(row) = self.row_of_kind() {
                self.slot = row.slot + 1;
                self.from = 0;
                return Some(row);
            }
            self.kind += 1;
            self.slot = 0;
            self.from = 0;
        }
        None
    }
}

// The numbers of a row from this one on. That of nearly every row is 0.
pub fn cut(row: [u64; 4], from: usize) -> [u64; 4]
    ensures { bit_at result ≡ meet (bit_at row) (meet (at_least from) (under 256)) }
{
    if from == 0 {
        return row;
    }
    row_sets::both(row, row_sets::at_least(from))
}

// The cursor at the finding whose number this is.
pub fn cursor_at(code: u64) -> Cursor
    requires { code < 281474976710656 }
    ensures { cursor_place result ≡ place_at code }
{
    // Kept: `as u16`; what is cast is below 65536, and a `TryFrom` would add a refusal that cannot come.
    Cursor {
        kind: (code / 4294967296) as u16,
        a: (code / 65536 % 65536) as u16,
        b: (code % 65536) as u16,
    }
}

impl Cursor {
    // Whether what is told of all containers at once is to be told before a row asks for it: many findings are wanted, and of the rows of
    // kind 2, the last to ask for it, more than half are still to come.
    pub fn tells_ahead(self, wanted: usize) -> bool
        ensures { result ≡ (leb 16 wanted && (ltb self.kind 2 || (eqb self.kind 2 && ltb self.a 128))) }
    {
        (MANY <= wanted) & ((self.kind < 2) | ((self.kind == 2) & (self.a < 128)))
    }

    // Puts the findings after the cursor's three numbers, as many as the list holds; answers how many.
    fn put_all(self, memory: &Words, list: &mut [u64]) -> usize
        requires { well_formed memory.now ≡ true }
        ensures { Puts list.old 0 (map finding_code (walk (next_after (model_in memory.now) (bits_in memory.now)) (length list.old) (cursor_place self))) list.new result }
    {
        let mut view = View::of(memory, self.tells_ahead(list.len()), false);
        let mut slots = [[0; 4]; 8];
        view.slots(memory, &mut slots);
        let mut count = 0;
        let rows = Rows {
            slots: &slots,
            kind: usize::from(self.kind),
            slot: usize::from(self.a),
            from: usize::from(self.b) + 1,
        };
        for row in rows {
            if count == list.len() {
                return count;
            }
            let found = finding_rows::finding_row(memory, &mut view, row.kind, row.slot);
            let wanted = cut(found, row.from);
            count += row_listing::put_row(&mut list[count..], row.kind, row.slot, wanted);
        }
        count
    }

    // The findings after the cursor's three numbers, whatever they are, as many as the list holds, each as one number.
    pub fn list(self, memory: &Words, list: &mut [u64]) -> Put
        requires { well_formed memory.now ≡ true }
        ensures puts { Puts list.old 0 (map finding_code (walk (next_after (model_in memory.now) (bits_in memory.now)) (length list.old) (cursor_place self))) list.new result.count }
        ensures cursor_value { cursor_place result.cursor ≡ moved (cursor_place self) (walk (next_after (model_in memory.now) (bits_in memory.now)) (length list.old) (cursor_place self)) }
    {
        let count = self.put_all(memory, list);
        if count == 0 {
            return Put {
                count,
                cursor: self,
            };
        }
        Put {
            count,
            cursor: cursor_at(list[count - 1]),
        }
    }

    // The first finding after the cursor's three numbers, and the cursor moved to it: a listing of one.
    pub fn next(self, memory: &Words) -> Option<(Finding, Cursor)>
        requires { well_formed memory.now ≡ true }
        ensures { result ≡ next_step (next_after (model_in memory.now) (bits_in memory.now) (cursor_place self)) }
    {
        let mut list = [0u64; 1];
        let put = self.list(memory, &mut list);
        if put.count == 0 {
            return None;
        }
        let cursor = put.cursor;
        let finding = Finding {
            kind: cursor.kind,
            a: cursor.a,
            b: cursor.b,
        };
        Some((finding, cursor))
    }
}
