// A row and a column of the matrix by the written rules, from each policy's two sets.
#![tactic(auto)]

ghost use Rattle.std.specs.Prelude.{◌≡◌, ◌<◌, ◌+◌, is_some};
ghost use Rattle.std.specs.Iterator.{at_most};
ghost use Rattle.bitrow.specs.Bit.{bit_at};
ghost use Rattle.bitrow.specs.Set.{meet, under};
ghost use Rattle.sets.specs.Sets.{bits};
ghost use Rattle.rules.specs.Lets.{union, Picks, picked, sets_let, sets_let_by, line};
ghost use Rattle.rules.specs.Policies.{to_come, PolicySteps};

use sets::PolicySets;

// Some policies, rising: the numbers below 128 of a row.
// Kept: a type of its own beside `row_members::Members`, which goes over all 256 numbers of a row: tried here, that takes 1.4 to 3.4 times
// as long.
#[derive(Clone, Copy)]
pub struct Policies {
    pub low: u64,
    pub high: u64,
}

impl Policies {
    pub fn of(row: [u64; 4]) -> Policies
        ensures { to_come result ≡ meet (bit_at row) (under 128) }
    {
        Policies {
            low: row[0],
            high: row[1],
        }
    }
}

impl Iterator for Policies {
    type Item = usize;

    ghost next_gives = { PolicySteps };

    ghost remaining = { λ s. at_most (s.low + s.high) };

    // Kept: the `as`, since no `From` makes a `usize` of the `u32` that `trailing_zeros` gives.
    #[inline]
    fn next(&mut self) -> Option<usize> {
        if 0 < self.low {
            let q = self.low.trailing_zeros() as usize;
            self.low = bitrow::without_lowest(self.low);
            return Some(q);
        }
        if 0 < self.high {
            let q = 64 + self.high.trailing_zeros() as usize;
            self.high = bitrow::without_lowest(self.high);
            return Some(q);
        }
        None
    }
}

// The union of the rows of those of some policies whose row of `tests` has a; None if there is no such policy.
// Kept: two arrays and not the struct of both, since each of a policy's two sets is the test of one call and the row of the other; in
// the loop the flag beside the row: an Option gathered there was tried, and takes up to 1.7 times as long where many policies pass.
fn pick(
    policies: [u64; 4],
    tests: &[[u64; 4]; 128],
    rows: &[[u64; 4]; 128],
    a: usize,
) -> Option<[u64; 4]>
    requires { a < 256 }
    ensures { Picks 128 (bit_at policies) (bits tests.now) (bits rows.now) a (is_some result) (picked result) }
{
    let word = a / 64;
    let mut any = false;
    let mut joined = row_sets::none();
    for q in Policies::of(policies) {
        if bitrow::bit_of(tests[q][word], a) {
            any = true;
            let next = row_sets::either(joined, rows[q]);
            joined = next;
        }
    }
    if any {
        return Some(joined);
    }
    None
}

// The union of the rows of some policies.
pub fn union_of(policies: [u64; 4], rows: &[[u64; 4]; 128]) -> [u64; 4]
    ensures { bit_at result ≡ union (bit_at policies) (bits rows.now) 128 }
{
    let mut joined = row_sets::none();
    for q in Policies::of(policies) {
        let more = row_sets::either(joined, rows[q]);
        joined = more;
    }
    joined
}

// Those of `among` that a may have to do with by some policies: all, or those that a policy selecting a allows.
pub fn outward(a: usize, policies: [u64; 4], sets: &PolicySets, among: [u64; 4]) -> [u64; 4]
    requires { a < 256 }
    ensures { bit_at result ≡ meet (bit_at among) (sets_let 128 (bit_at policies) (bits sets.now.selected) (bits sets.now.allowed) a) }
{
    match pick(policies, &sets.selected, &sets.allowed, a) {
        Some(whom) => row_sets::both(among, whom),
        None => among,
    }
}

// Those of `among` that may have to do with a by some policies: those not chosen, or selected by a policy that allows a. Chosen is
// what the policies select.
pub fn inward(
    a: usize,
    policies: [u64; 4],
    chosen: [u64; 4],
    sets: &PolicySets,
    among: [u64; 4],
) -> [u64; 4]
    requires a_bound { a < 256 }
    requires chosen_value { bit_at chosen ≡ union (bit_at policies) (bits sets.now.selected) 128 }
    ensures { bit_at result ≡ meet (bit_at among) (sets_let_by 128 (bit_at policies) (bits sets.now.selected) (bits sets.now.allowed) a) }
{
    let who = pick(policies, &sets.allowed, &sets.selected, a).unwrap_or(row_sets::none());
    row_sets::either(row_sets::except(among, chosen), row_sets::both(among, who))
}

// What a line of the matrix is worked out from, beside each policy's two sets: the standing containers, the policies of the line's
// direction, those of the other, and what those select.
#[derive(Clone, Copy)]
pub struct Sides {
    pub standing: [u64; 4],
    pub out: [u64; 4],
    pub back: [u64; 4],
    pub chosen: [u64; 4],
}

// The standing containers that a standing a reaches, itself among them, where `out` are the egress and `back` the ingress policies; those
// that reach a, where they are exchanged.
pub fn row_by_rules(a: usize, sides: Sides, sets: &PolicySets) -> [u64; 4]
    requires a_bound { a < 256 }
    requires chosen_value { bit_at sides.chosen ≡ union (bit_at sides.back) (bits sets.now.selected) 128 }
    ensures { bit_at result ≡ line 128 (bit_at sides.standing) (bit_at sides.out) (bit_at sides.back) (bits sets.now.selected) (bits sets.now.allowed) a }
{
    if !row_sets::has(sides.standing, a) {
        return row_sets::none();
    }
    let there = outward(a, sides.out, sets, sides.standing);
    let others = inward(a, sides.back, sides.chosen, sets, there);
    row_sets::with(others, a)
}
