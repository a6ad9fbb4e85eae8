// The lines of the findings after any three numbers, put straight from the rows of findings.
#![tactic(auto)]

ghost use Rattle.std.specs.Prelude.{◌≡◌, true, map, ◌-◌, ◌*◌, ◌≤◌, ◌<◌, length, take, get_or};
ghost use Rattle.bitrow.specs.Bit.{bit_at};
ghost use Rattle.bitrow.specs.Set.{size};
ghost use Rattle.buffer.specs.Buffer.{Puts};
ghost use Rattle.model.specs.Kinds.{kind_number};
ghost use Rattle.model.specs.Findings.{next_after, walk, finding_code};
ghost use Rattle.formed.specs.Registry.{model_in, bits_in, well_formed};
ghost use Rattle.finding_rows.specs.View.{ViewOf};
ghost use Rattle.row_listing.specs.Listing.{row_findings};
ghost use Rattle.findings.specs.Steps.{cursor_place, place_at};
ghost use Rattle.text.specs.Lines.{code_lines};
ghost use Rattle.listing_lines.specs.GoesOn.{GoesOn};
ghost use Rattle.listing_lines.specs.RowsIn.{RowsIn, place_before};

use finding_rows::View;
use findings::{Cursor, Rows};
use model::Kind;
use store::Words;

// How many bytes of lines were put, and where the listing goes on: at the last finding put. None where fewer findings were put than were
// wanted, since no other is left then.
#[derive(Clone, Copy)]
pub struct Lines {
    pub put: usize,
    pub next: Option<Cursor>,
}

// How many bytes of lines were put, and the cursor moved to the last finding put.
#[derive(Clone, Copy)]
struct Last {
    put: usize,
    cursor: Cursor,
}

// Puts the lines of the first findings of a row, those of a kind at a: as many as the list holds, which lends room for their numbers.
fn put_listed(out: &mut [u8], list: &mut [u64], kind: Kind, a: usize, row: [u64; 4]) -> Last
    requires { (a < 256) × (0 < length list.old) × (length list.old ≤ size (bit_at row) 256) × (10 * length list.old ≤ length out.old) }
    ensures lines { Puts out.old 0 (code_lines (map finding_code (take (length list.old) (row_findings (kind_number kind) a (bit_at row))))) out.new result.put }
    ensures cursor_value { cursor_place result.cursor ≡ place_at (get_or (map finding_code (take (length list.old) (row_findings (kind_number kind) a (bit_at row)))) (length list.old - 1) 0) }
{
    row_listing::put_row(list, kind, a, row);
    Last {
        put: finding_lines::put_findings(out, list),
        cursor: findings::cursor_at(list[list.len() - 1]),
    }
}

// Puts the lines of the first findings of a row, those of a kind at a: as many as are wanted.
fn put_first_lines(out: &mut [u8], kind: Kind, a: usize, row: [u64; 4], wanted: usize) -> Last
    requires { (a < 256) × (0 < wanted) × (wanted ≤ 256) × (wanted ≤ size (bit_at row) 256) × (10 * wanted ≤ length out.old) }
    ensures lines { Puts out.old 0 (code_lines (map finding_code (take wanted (row_findings (kind_number kind) a (bit_at row))))) out.new result.put }
    ensures cursor_value { cursor_place result.cursor ≡ place_at (get_or (map finding_code (take wanted (row_findings (kind_number kind) a (bit_at row)))) (wanted - 1) 0) }
{
    let mut list = [0; 256];
    put_listed(out, &mut list[..wanted], kind, a, row)
}

// Puts the lines of the findings of these rows, as many as are wanted. A row that ends before that many is put whole; of the row with the
// last of them only the first are.
fn put_rows(memory: &Words, view: &mut View, rows: Rows, out: &mut [u8], wanted: usize) -> Lines
    requires { (well_formed memory.now ≡ true) × ViewOf memory.now view.old × RowsIn memory.now rows × (0 < wanted) × (10 * wanted ≤ length out.old) }
    ensures lines { Puts out.old 0 (code_lines (map finding_code (walk (next_after (model_in memory.now) (bits_in memory.now)) wanted (place_before rows.entry)))) out.new result.put }
    ensures goes_on { GoesOn wanted (place_before rows.entry) (walk (next_after (model_in memory.now) (bits_in memory.now)) wanted (place_before rows.entry)) result.next }
    ensures view { ViewOf memory.now view.new }
{
    let mut count = 0;
    let mut put = 0;
    for row in rows {
        let found = finding_rows::finding_row(memory, view, row.kind, row.slot);
        let numbers = findings::cut(found, row.from);
        // Kept: the cast, since no `From` makes a `usize` of a `u32`.
        let many = row_reads::count(numbers) as usize;
        let left = wanted - count;
        if left <= many {
            let last = put_first_lines(&mut out[put..], row.kind, row.slot, numbers, left);
            return Lines {
                put: put + last.put,
                next: Some(last.cursor),
            };
        }
        put += finding_lines::put_row_lines(&mut out[put..], row.kind, row.slot, numbers);
        count += many;
    }
    Lines { put, next: None }
}

// Puts the lines of the findings after the cursor's three numbers, whatever they are, as many as are wanted.
pub fn put_lines(memory: &Words, cursor: Cursor, out: &mut [u8], wanted: usize) -> Lines
    requires { (well_formed memory.now ≡ true) × (10 * wanted ≤ length out.old) }
    ensures lines { Puts out.old 0 (code_lines (map finding_code (walk (next_after (model_in memory.now) (bits_in memory.now)) wanted (cursor_place cursor)))) out.new result.put }
    ensures goes_on { GoesOn wanted (cursor_place cursor) (walk (next_after (model_in memory.now) (bits_in memory.now)) wanted (cursor_place cursor)) result.next }
{
    if wanted == 0 {
        return Lines {
            put: 0,
            next: Some(cursor),
        };
    }
    // A listing goes on to its end, so nothing is put off.
    let mut view = View::of(memory, cursor.tells_ahead(wanted), true);
    let mut slots = [[0; 4]; 8];
    view.slots(memory, &mut slots);
    let rows = Rows {
        slots: &slots,
        kind: usize::from(cursor.kind),
        slot: usize::from(cursor.a),
        from: usize::from(cursor.b) + 1,
    };
    put_rows(memory, &mut view, rows, out, wanted)
}
