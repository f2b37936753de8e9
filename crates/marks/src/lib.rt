// A set of numbers below 64 · N, in the bits of N words, whose ones are counted, as a rule of the project asks.
#![tactic(auto)]

ghost use Rattle.std.specs.Prelude.{◌≡◌, ℕ, ◌*◌, ◌^◌, ◌<◌, true, false, length, set, slice_index_or, slice_set};
ghost use Rattle.marks.specs.Bits.{members, ones_of};

#[derive(Clone, Copy)]
pub struct Marks<const N: usize> {
    words: [u64; N],
    ghost long: { length words ≡ N },
}

impl<const N: usize> Marks<N> {
    // The empty set.
    pub fn none() -> Marks<N>
        ensures { (i : ℕ) → slice_index_or (members result.words) i false ≡ false }
    {
        Marks { words: [0; N] }
    }

    // Whether the number is in the set.
    pub fn has(&self, i: usize) -> bool
        requires { i < 64 * N }
        ensures { result ≡ slice_index_or (members self.now.words) i false }
    {
        (self.words[i / 64] >> (i % 64)) & 1 == 1
    }

    // Puts the number in.
    pub fn mark(&mut self, i: usize)
        requires { i < 64 * N }
        ensures { members self.new.words ≡ slice_set (members self.old.words) i true }
    {
        self.words[i / 64] |= 1 << (i % 64);
    }

    // How many numbers are in the set.
    pub fn count(&self) -> usize
        requires { 64 * N < 2 ^ 64 }
        ensures { result ≡ ones_of (members self.now.words) }
    {
        // A sum over a chain was tried: that it fits, and what it is, stayed open.
        let mut n = 0;
        for w in &self.words {
            // A usize is From no u32.
            n += w.count_ones() as usize;
        }
        n
    }
}
