// Which standing policies select each container, by the stored sets: a table that is filled once some rows were asked for.
#![tactic(auto)]

ghost use Rattle.std.specs.Prelude.{◌≡◌, true, List, ℕ, ◌<◌, ◌≤◌};
ghost use Rattle.bitrow.specs.Bit.{bit, bit_at};
ghost use Rattle.bitrow.specs.Set.{join};
ghost use Rattle.model.specs.Model.{container_slots};
ghost use Rattle.formed.specs.Registry.{bits_in};
ghost use Rattle.container_findings.specs.Rows.{policies_stand};
ghost use Rattle.selecting.specs.Selecting.{Shaped, Put, Entered, NotedFor, Joined, EachSelecting, SelectingIn, Sharing, Covering};

use row_members::Bits;
use rules::Policies;
use store::{Part, Words};

// How far a table is.
#[derive(Clone, Copy)]
pub enum Filling {
    // It is filled after so many rows more: till then to compare all policies costs no more than to fill it.
    Later(u32),
    Filled,
}

// So many rows are asked for before the table is filled, where it is not known how many will be: without it a row takes a fifth of a
// microsecond, and to fill it takes up to seven.
const ROWS_FIRST: u32 = 96;

// A row of policies for each container, and beside them one of the wide policies: these select many containers, so they are put into none
// of the rows and count for every container.
// Kept: two words for a row, since no policy has a number from 128 on: half the memory, and half the words to join.
#[derive(Drop)]
pub struct Selecting {
    pub filling: Filling,
    pub rows: [[u64; 2]; 256],
    pub wide: [u64; 2],
}

impl Selecting {
    // A table that is not filled: it holds of any memory. `at_once`: it is filled for the first row that asks.
    pub fn empty(at_once: bool) -> Selecting
        ensures { (m : List ℕ) → SelectingIn m result }
    {
        let rows_first = if at_once { 0 } else { ROWS_FIRST };
        Selecting {
            filling: Filling::Later(rows_first),
            rows: [[0; 2]; 256],
            wide: [0; 2],
        }
    }
}

// Policy b put into a row.
fn put(row: &mut [u64; 2], b: usize)
    requires { b < 128 }
    ensures { Put b row.old row.new }
{
    let k = b / 64;
    row[k] = bitrow::word_with(row[k], b);
}

// Policy b put into the row of each of some containers, of which `word` has the 64 from `first` on.
fn enter_word(rows: &mut [[u64; 2]; 256], b: usize, word: u64, first: usize)
    requires { (b < 128) × (first ≤ 192) × Shaped container_slots rows.old }
    ensures { Entered b first (bit word) rows.old rows.new }
{
    for i in Bits(word) {
        let c = first + usize::from(i);
        put(&mut rows[c], b);
    }
}

// Policy b put into the row of each of some containers.
fn enter_rows(rows: &mut [[u64; 2]; 256], b: usize, who: [u64; 4])
    requires { (b < 128) × Shaped container_slots rows.old }
    ensures { Entered b 0 (bit_at who) rows.old rows.new }
{
    enter_word(rows, b, who[0], 0);
    enter_word(rows, b, who[1], 64);
    enter_word(rows, b, who[2], 128);
    enter_word(rows, b, who[3], 192);
}

// A policy that selects more containers than this is wide: to put it into a row of each takes longer than the comparisons that are saved,
// since most policies share a container with it.
const MOST_ENTERED: u32 = 64;

// Policy b put among the wide ones where it selects many containers, and else into the row of each container that it selects.
fn enter(table: &mut Selecting, memory: &Words, b: usize)
    requires { (b < 128) × Shaped container_slots table.old.rows }
    ensures { NotedFor b ((bits_in memory.now).selected b) table.old table.new }
{
    let who = stored::stored_set(memory, Part::Select, b);
    if row_reads::count(who) > MOST_ENTERED {
        put(&mut table.wide, b);
    } else {
        enter_rows(&mut table.rows, b, who);
    }
}

// Every standing policy put into the table.
fn enter_all(table: &mut Selecting, memory: &Words, standing: [u64; 4])
    requires { (bit_at standing ≡ policies_stand memory.now) × Shaped container_slots table.old.rows }
    ensures { EachSelecting memory.now table.new.rows table.new.wide }
{
    for b in Policies::of(standing) {
        enter(table, memory, b);
    }
}

// The policies of two rows.
fn either(a: [u64; 2], b: [u64; 2]) -> [u64; 2]
    ensures { bit_at result ≡ join (bit_at a) (bit_at b) }
{
    [a[0] | b[0], a[1] | b[1]]
}

// A row of policies as a row of any numbers below 256.
fn widened(row: [u64; 2]) -> [u64; 4]
    ensures { bit_at result ≡ bit_at row }
{
    [row[0], row[1], 0, 0]
}

// What is so far, and the rows of some containers, of which `word` has the 64 from `first` on.
fn join_word(rows: &[[u64; 2]; 256], word: u64, first: usize, so_far: [u64; 2]) -> [u64; 2]
    requires { first ≤ 192 }
    ensures { Joined first (bit word) rows.now (bit_at so_far) (bit_at result) }
{
    let mut joined = so_far;
    for i in Bits(word) {
        let c = first + usize::from(i);
        let next = either(joined, rows[c]);
        joined = next;
    }
    joined
}

// The wide policies, and the rows of some containers.
fn joined_rows(table: &Selecting, who: [u64; 4]) -> [u64; 4]
    ensures { Joined 0 (bit_at who) table.now.rows (bit_at table.now.wide) (bit_at result) }
{
    let rows = &table.rows;
    let a = join_word(rows, who[0], 0, table.wide);
    let b = join_word(rows, who[1], 64, a);
    let c = join_word(rows, who[2], 128, b);
    let d = join_word(rows, who[3], 192, c);
    widened(d)
}

// Fills the table where no more rows come before that, and else counts this one; whether it is filled.
fn fill(memory: &Words, table: &mut Selecting, standing: [u64; 4]) -> bool
    requires { (bit_at standing ≡ policies_stand memory.now) × SelectingIn memory.now table.old }
    ensures rows { result ≡ true → EachSelecting memory.now table.new.rows table.new.wide }
    ensures table { SelectingIn memory.now table.new }
{
    match table.filling {
        Filling::Later(0) => {
            enter_all(table, memory, standing);
            table.filling = Filling::Filled;
            true
        }
        Filling::Later(n) => {
            table.filling = Filling::Later(n - 1);
            false
        }
        Filling::Filled => true,
    }
}

// So many rows at most are joined: more take longer than the comparisons that are saved, since most policies are in some of them.
const MOST_JOINED: u32 = 64;

// The policies that may select some container of `who`: the wide ones, and those of the rows of all of them. All policies, where these are
// many or the table is not filled.
pub fn sharing(memory: &Words, table: &mut Selecting, standing: [u64; 4], who: [u64; 4]) -> [u64; 4]
    requires { (bit_at standing ≡ policies_stand memory.now) × SelectingIn memory.now table.old }
    ensures row { Sharing memory.now (bit_at who) (bit_at result) }
    ensures table { SelectingIn memory.now table.new }
{
    if row_reads::count(who) > MOST_JOINED {
        return row_sets::all();
    }
    if !fill(memory, table, standing) {
        return row_sets::all();
    }
    joined_rows(table, who)
}

// The policies that may select every container of `who`: the wide ones, and those of the row of the lowest, which leaves few others and
// takes no loop. All policies, where the table is not filled or `who` is empty.
pub fn covering(
    memory: &Words,
    table: &mut Selecting,
    standing: [u64; 4],
    who: [u64; 4],
) -> [u64; 4]
    requires { (bit_at standing ≡ policies_stand memory.now) × SelectingIn memory.now table.old }
    ensures row { Covering memory.now (bit_at who) (bit_at result) }
    ensures table { SelectingIn memory.now table.new }
{
    if !fill(memory, table, standing) {
        return row_sets::all();
    }
    match row_reads::next_from(who, 0) {
        Some(c) => widened(either(table.rows[c], table.wide)),
        None => row_sets::all(),
    }
}
