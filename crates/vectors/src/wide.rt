// A fold whose block has 34 words.
ghost use Rattle.std.specs.Prelude.{◌≡◌};
ghost use Rattle.digest.specs.Fold.{zeros};
ghost use Rattle.vectors.specs.Wide.{wide_meaning};
ghost use Rattle.std.proofs.Common.{rules};

use digest::{Digest, Fault, Fold};

#[derive(Clone, Copy)]
pub struct WideFold {
    fold: Fold,
}

impl WideFold {
    pub fn new() -> WideFold
        ensures lanes { result.fold.lanes ≡ zeros }
        ensures count { result.fold.count ≡ 0 }
    {
        WideFold { fold: Fold::new() }
    }
}

impl Digest for WideFold {
    ghost meaning = { wide_meaning };

    ghost state = { λ d. d.fold.lanes };

    ghost count = { λ d. d.fold.count };

    const BLOCK: usize = 34;

    ghost BLOCK = { 34 };

    ghost block = { Prim.search rules };

    ghost range = { Prim.search rules };

    fn clear(&mut self) {
        self.fold.clear();
    }

    fn feed(&mut self, word: u32) -> Result<(), Fault> {
        self.fold.feed(word)
    }

    fn result(&self) -> [u32; 8] {
        self.fold.result()
    }
}
