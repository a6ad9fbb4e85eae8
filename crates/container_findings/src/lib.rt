// The findings over containers: kinds 1 to 4.
#![tactic(auto)]

ghost use Rattle.std.specs.Prelude.{◌≡◌, true, List, ℕ, ◌≤◌, ◌<◌};
ghost use Rattle.bitrow.specs.Bit.{bit, bit_at};
ghost use Rattle.bitrow.specs.Set.{meet, under};
ghost use Rattle.model.specs.Kinds.{kind_number};
ghost use Rattle.formed.specs.Registry.{EntriesFormed};
ghost use Rattle.container_findings.specs.Rows.{shown_at, containers_stand, zero_if, if_two_stand, with_user, users_from, AtContainer};
ghost use Rattle.container_findings.specs.Passes.{word_set, Passed};
ghost use Rattle.container_findings.specs.Views.{of_user, OwnWords, places_of, UsersOf, BothTold, ContainersSeen, SlotsOfKind};

use model::Kind;
use row_members::Bits;
use store::Words;

// The users, as far as they were asked for. If `told` is set, `own` has each container's word under the user key, 0 where it has none. At each
// place is the word of one user, or 0, and the row of the standing containers with that word. A user's place is told by the word alone, and a
// user who finds another one there takes the place. `asked` is of how many containers the word was looked up one by one, or past the most where
// nothing is put off: a number for speed alone, of which nothing is said.
// Kept: a flag beside the array, since an Option of it would be copied as it is filled; and two arrays, since a user is looked up by the words
// alone.
#[derive(Drop)]
pub struct Users {
    pub told: bool,
    pub asked: u32,
    pub own: [u64; 256],
    pub words: [u64; 64],
    pub rows: [[u64; 4]; 64],
}

// What the findings over containers are worked out from, made once for a listing: the standing containers, the users met so far, and if `told` is
// set those that every container reaches and those that are isolated, else those that may be.
// Of its 4.6 KiB none is copied: it is made where it is kept, and lent.
// Kept: a flag: before it is set the two rows have other containers too.
#[derive(Drop)]
pub struct ContainerView {
    pub standing: [u64; 4],
    pub told: bool,
    pub by_all: [u64; 4],
    pub by_none: [u64; 4],
    pub users: Users,
}

fn zero_if(t: bool) -> [u64; 4]
    ensures { bit_at result ≡ zero_if t }
{
    if t {
        row_sets::with(row_sets::none(), 0)
    } else {
        row_sets::none()
    }
}

// The word of each container under the user key.
fn look_up(memory: &Words, own: &mut [u64; 256])
    requires { EntriesFormed memory.now }
    ensures { OwnWords memory.now 256 own.new }
{
    let key = memory[0];
    for c in 0..store::CONTAINER_SLOTS {
        let at = store::CONTAINERS + store::CONTAINER_WORDS * c;
        own[c] = entry_labels::word_under(memory, at, key);
    }
}

// The places at which this word stands.
fn places_of(own: &[u64; 256], word: u64) -> [u64; 4]
    ensures { bit_at result ≡ meet (places_of own.now word) (under 256) }
{
    [
        stored::slots_with(own, 0, 1, word),
        stored::slots_with(own, 64, 1, word),
        stored::slots_with(own, 128, 1, word),
        stored::slots_with(own, 192, 1, word),
    ]
}

// Those of some containers whose word under the user key is this one; `set` has the 64 from `first` on.
fn same_user_word(memory: &Words, set: u64, first: usize, word: u64) -> u64
    requires { EntriesFormed memory.now × (first ≤ 192) }
    ensures { bit result ≡ meet (meet (bit set) (users_from memory.now word first)) (under 64) }
{
    let key = memory[0];
    let mut chosen = 0u64;
    for k in Bits(set) {
        let i = usize::from(k);
        let at = store::CONTAINERS + store::CONTAINER_WORDS * (first + i);
        if entry_labels::word_under(memory, at, key) == word {
            chosen = bitrow::word_with(chosen, i);
        }
    }
    chosen
}

// Those of a set whose word under the user key is this one.
fn same_user(memory: &Words, set: [u64; 4], word: u64) -> [u64; 4]
    requires { EntriesFormed memory.now }
    ensures { bit_at result ≡ meet (bit_at set) (with_user memory.now word) }
{
    [
        same_user_word(memory, set[0], 0, word),
        same_user_word(memory, set[1], 64, word),
        same_user_word(memory, set[2], 128, word),
        same_user_word(memory, set[3], 192, word),
    ]
}

// So many containers are always compared one by one: that takes no longer than to compare the words of all by the table.
const FEW: u32 = 24;

// So many are compared one by one before the words of all are told, where it is not known how many rows will be asked for.
const MOST_ASKED: u32 = 1024;

impl Users {
    // `at_once`: the words of all are told for the first set that is not small.
    pub fn none(at_once: bool) -> Users
        ensures { (m : List ℕ) → UsersOf m result }
    {
        let asked = if at_once { MOST_ASKED } else { 0 };
        Users {
            told: false,
            asked,
            own: [0; 256],
            words: [0; 64],
            rows: [[0; 4]; 64],
        }
    }

    // The words of all containers are told, once.
    fn tell(&mut self, memory: &Words)
        requires { EntriesFormed memory.now × UsersOf memory.now self.old }
        ensures own { OwnWords memory.now 256 self.new.own }
        ensures users { UsersOf memory.now self.new }
    {
        if !self.told {
            look_up(memory, &mut self.own);
            self.told = true;
        }
    }

    // The standing containers of the user with this word, worked out once as long as no other user takes the place.
    // Kept: the cast, since a label is a word of memory and std has no `From` from u64 to usize; what is cast is below 64.
    fn containers_of(&mut self, memory: &Words, standing: [u64; 4], word: u64) -> [u64; 4]
        requires standing { EntriesFormed memory.now × (bit_at standing ≡ containers_stand memory.now) }
        requires users { UsersOf memory.now self.old }
        requires user { 0 < word }
        ensures row { bit_at result ≡ of_user memory.now word }
        ensures users { UsersOf memory.now self.new }
    {
        let place = (word % 64) as usize;
        if self.words[place] == word {
            return self.rows[place];
        }
        self.tell(memory);
        let row = row_sets::both(standing, places_of(&self.own, word));
        self.words[place] = word;
        self.rows[place] = row;
        row
    }

    // Those of a set that stand and are of the user with this word. A small set is compared one by one, and so is any as long as few were.
    // Kept: the cast, as above.
    fn among(&mut self, memory: &Words, standing: [u64; 4], set: [u64; 4], word: u64) -> [u64; 4]
        requires standing { EntriesFormed memory.now × (bit_at standing ≡ containers_stand memory.now) }
        requires users { UsersOf memory.now self.old }
        requires user { 0 < word }
        ensures row { bit_at result ≡ meet (bit_at set) (of_user memory.now word) }
        ensures users { UsersOf memory.now self.new }
    {
        let place = (word % 64) as usize;
        let there = self.words[place];
        if there == word {
            return row_sets::both(set, self.rows[place]);
        }
        let n = row_reads::count(set);
        let asked = self.asked.saturating_add(n);
        if n <= FEW || (!self.told && asked <= MOST_ASKED) {
            self.asked = asked;
            return same_user(memory, row_sets::both(set, standing), word);
        }
        let own = self.containers_of(memory, standing, word);
        row_sets::both(set, own)
    }
}

// What the rows of some containers leave of all that stand: those that each of them reaches, and those that none of them reaches but itself.
// Once all that stand have been asked, and two do, these are those that every container reaches, and the isolated ones.
#[derive(Clone, Copy)]
struct Left {
    by_all: [u64; 4],
    by_none: [u64; 4],
}

// What the rows of 64 more leave, of which `word` has those that stand: word n of the standing containers. Compiled into its caller, where n
// is known, and so the word of a row that has its container's own bit.
#[inline(always)]
fn pass(memory: &Words, word: u64, n: usize, left: Left) -> Left
    requires { n < 4 }
    ensures { Passed memory.now (word_set n word) left result }
{
    let mut by_all = left.by_all;
    let mut by_none = left.by_none;
    for k in Bits(word) {
        let c = 64 * n + usize::from(k);
        let row = access::row_at(memory, c);
        let all = row_sets::both(by_all, row);
        by_all = all;
        let others = row_sets::without(row, c);
        let none = row_sets::except(by_none, others);
        by_none = none;
    }
    Left { by_all, by_none }
}

// A row, if at least two containers stand.
fn if_two_stand(standing: [u64; 4], row: [u64; 4]) -> [u64; 4]
    ensures { bit_at result ≡ if_two_stand (bit_at standing) (bit_at row) }
{
    if row_reads::count(standing) < 2 {
        return row_sets::none();
    }
    row
}

// What the rows of all that stand leave: those that every container reaches, and those that are isolated, of which there are none where one
// stands alone. Compiled into its callers: where a call stands before a view is made, the compiler clears the whole of it first.
#[inline(always)]
fn left_of(memory: &Words, standing: [u64; 4]) -> Left
    requires { bit_at standing ≡ containers_stand memory.now }
    ensures { BothTold memory.now result }
{
    let all = Left {
        by_all: standing,
        by_none: standing,
    };
    let one = pass(memory, standing[0], 0, all);
    let two = pass(memory, standing[1], 1, one);
    let three = pass(memory, standing[2], 2, two);
    let four = pass(memory, standing[3], 3, three);
    let by_all = four.by_all;
    let by_none = if_two_stand(standing, four.by_none);
    Left { by_all, by_none }
}

// Some of the lowest slots: the rows of the containers there mostly leave no other to be asked for by itself.
const FIRST: u64 = 65535;

// What the rows of the containers in the first slots leave: the slots at which there can still be a finding of kinds 1 and 2.
#[inline(always)]
fn first_left(memory: &Words, standing: [u64; 4]) -> Left
    requires { bit_at standing ≡ containers_stand memory.now }
    ensures by_all { SlotsOfKind memory.now 1 result.by_all }
    ensures by_none { SlotsOfKind memory.now 2 result.by_none }
{
    let by_all = standing;
    let by_none = standing;
    let before = Left { by_all, by_none };
    pass(memory, standing[0] & FIRST, 0, before)
}

impl ContainerView {
    // Of the containers that stand. What is told of all of them is told where `many` findings are to be asked for. `at_once`: as with the
    // users.
    pub fn of(memory: &Words, standing: [u64; 4], many: bool, at_once: bool) -> ContainerView
        requires { bit_at standing ≡ containers_stand memory.now }
        ensures { ContainersSeen memory.now result }
    {
        let left = if many {
            left_of(memory, standing)
        } else {
            first_left(memory, standing)
        };
        let all_slots = left.by_all;
        let none_slots = left.by_none;
        ContainerView {
            standing,
            told: many,
            by_all: all_slots,
            by_none: none_slots,
            users: Users::none(at_once),
        }
    }

    // Those that every container reaches and those that are isolated are told, once.
    #[inline(always)]
    fn tell(&mut self, memory: &Words)
        requires { ContainersSeen memory.now self.old }
        ensures told { self.new.told ≡ true }
        ensures view { ContainersSeen memory.now self.new }
        ensures kept { self.new.standing ≡ self.old.standing }
    {
        if self.told {
            return;
        }
        let left = left_of(memory, self.standing);
        let by_all = left.by_all;
        let by_none = left.by_none;
        self.by_all = by_all;
        self.by_none = by_none;
        self.told = true;
    }
}

// 3. User cross. A container without the user key is a stranger to all others.
// Kept: `AtContainer` over a row and a slot. It speaks of the memory that is lent, so a struct of the two would hold that as a
// ghost, and each call would show beside it that it is lent the same memory.
fn user_cross(memory: &Words, standing: [u64; 4], users: &mut Users, a: usize) -> [u64; 4]
    requires at { AtContainer memory.now standing a }
    requires users { UsersOf memory.now users.old }
    ensures row { bit_at result ≡ shown_at memory.now 3 a }
    ensures users { UsersOf memory.now users.new }
{
    let reached = access::row_at(memory, a);
    let others = row_sets::without(row_sets::both(standing, reached), a);
    if row_tests::is_empty(others) {
        return row_sets::none();
    }
    let word = entry_labels::word_under(
        memory,
        store::CONTAINERS + store::CONTAINER_WORDS * a,
        memory[0],
    );
    if word == 0 {
        return others;
    }
    let own = users.among(memory, standing, others, word);
    row_sets::except(others, own)
}

// 4. System isolation. With no system label set there are none.
fn system_isolation(memory: &Words, standing: [u64; 4], a: usize) -> [u64; 4]
    requires { AtContainer memory.now standing a }
    ensures { bit_at result ≡ shown_at memory.now 4 a }
{
    let key = memory[1];
    if key == 0 {
        return row_sets::none();
    }
    let word = key * 65536 + memory[2];
    if !entry_labels::carries(memory, store::CONTAINERS + store::CONTAINER_WORDS * a, word) {
        return row_sets::none();
    }
    let reached = access::row_at(memory, a);
    row_sets::except(row_sets::without(standing, a), reached)
}

// The slots at which there can be a finding of this kind; there is none at any other. Of kinds 1 and 2 these are what the first rows leave
// until those that they tell of are told.
pub fn container_slots(memory: &Words, view: &ContainerView, kind: Kind) -> [u64; 4]
    requires { EntriesFormed memory.now × ContainersSeen memory.now view.now × (kind_number kind < 5) }
    ensures { SlotsOfKind memory.now (kind_number kind) result }
{
    match kind {
        Kind::AllReachable => view.by_all,
        Kind::AllIsolated => view.by_none,
        Kind::SystemIsolation if memory[1] == 0 => row_sets::none(),
        _ => view.standing,
    }
}

// The findings of a kind over containers at a, as the row of all b. What the view is asked for first is told in it.
pub fn container_row(memory: &Words, view: &mut ContainerView, kind: Kind, a: usize) -> [u64; 4]
    requires { EntriesFormed memory.now × ContainersSeen memory.now view.old × (a < 256) × (kind_number kind < 5) }
    ensures row { bit_at result ≡ shown_at memory.now (kind_number kind) a }
    ensures view { ContainersSeen memory.now view.new }
    ensures kept { view.new.standing ≡ view.old.standing }
{
    let standing = view.standing;
    if !row_sets::has(standing, a) {
        return row_sets::none();
    }
    match kind {
        Kind::AllReachable => {
            view.tell(memory);
            zero_if(row_sets::has(view.by_all, a))
        }
        Kind::AllIsolated => {
            view.tell(memory);
            zero_if(row_sets::has(view.by_none, a))
        }
        Kind::UserCross => user_cross(memory, standing, &mut view.users, a),
        Kind::SystemIsolation => system_isolation(memory, standing, a),
        Kind::Shadow | Kind::Conflict | Kind::Irrelevance => unreachable!(),
    }
}

// The findings at a of the kind of this number, as the row of all b; of 0, which is no kind, there are none.
// Kept: `number: usize`: the promise is of any number (a rule), also of one that is no kind; of a `Kind` it is `container_row`.
pub fn container_row_numbered(
    memory: &Words,
    view: &mut ContainerView,
    number: usize,
    a: usize,
) -> [u64; 4]
    requires { EntriesFormed memory.now × ContainersSeen memory.now view.old × (a < 256) × (number < 5) }
    ensures row { bit_at result ≡ shown_at memory.now number a }
    ensures view { ContainersSeen memory.now view.new }
    ensures kept { view.new.standing ≡ view.old.standing }
{
    match Kind::numbered(number) {
        Some(kind) => container_row(memory, view, kind, a),
        None => row_sets::none(),
    }
}
