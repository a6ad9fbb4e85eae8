// The numbers of a row and the bits of a word, one after another.
#![tactic(auto)]

ghost use Rattle.std.specs.Prelude.{◌≡◌, ◌-◌};
ghost use Rattle.std.specs.Iterator.{at_most};
ghost use Rattle.row_members.specs.Steps.{MemberSteps, BitSteps};

// The numbers of a row that are not below `from`, rising.
#[derive(Clone, Copy)]
pub struct Members {
    pub row: [u64; 4],
    pub from: usize,
}

impl Members {
    pub fn of(row: [u64; 4]) -> Members
        ensures { result ≡ record { row = row; from = 0 } }
    {
        Members { row, from: 0 }
    }
}

impl Iterator for Members {
    type Item = usize;

    ghost next_gives = { MemberSteps };

    ghost remaining = { λ s. at_most (256 - s.from) };

    #[inline]
    fn next(&mut self) -> Option<usize> {
        let number = row_reads::next_from(self.row, self.from)?;
        self.from = number + 1;
        Some(number)
    }
}

// The bits of a word that are set, the lowest first.
#[derive(Clone, Copy)]
pub struct Bits(pub u64);

impl Iterator for Bits {
    type Item = u8;

    ghost next_gives = { BitSteps };

    ghost remaining = { λ s. at_most s.0 };

    #[inline]
    fn next(&mut self) -> Option<u8> {
        if self.0 == 0 {
            return None;
        }
        // Kept: the cast of a number below 64; `trailing_zeros` gives a u32, from which no `From` goes to a u8.
        let lowest = u64::trailing_zeros(self.0) as u8;
        self.0 = bitrow::without_lowest(self.0);
        Some(lowest)
    }
}
