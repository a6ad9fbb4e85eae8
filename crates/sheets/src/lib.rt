// The report's meaning: the types that its steps hand on. What a step does, what the whole sheet is, and that the text of all steps,
// joined, is that sheet, is defined in specs/ and proved in proofs/.
#![tactic(auto)]

ghost use Rattle.std.specs.Prelude.{◌≡◌};

use findings::Cursor;

#[derive(Clone, Copy)]
pub enum State {
    // Blocks come: how many were taken, and how many bytes of the next one the buffer of the started block holds.
    Taking(u64, usize),
    // The input has ended.
    Counting,
    // The findings after the cursor are still to come.
    Listing(Cursor),
    Finished,
}

// The state after some text, and how many bytes of it were put.
#[derive(Clone, Copy)]
pub struct Told {
    pub state: State,
    pub put: usize,
}

impl Told {
    // The same of a step that used so many bytes of the piece.
    pub fn using(self, used: usize) -> Stepped
        ensures { result ≡ record { state = self.state; used = used; put = self.put } }
    {
        Stepped {
            state: self.state,
            used,
            put: self.put,
        }
    }
}

// The state after a step, how many bytes of the piece it used, and how many bytes of text it put.
#[derive(Clone, Copy)]
pub struct Stepped {
    pub state: State,
    pub used: usize,
    pub put: usize,
}
