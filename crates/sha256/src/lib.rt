// SHA-256 of FIPS 180-4, over words taken as four bytes each, the highest first.
#![tactic(auto)]

ghost use Rattle.std.specs.Prelude.{◌≡◌, ℕ, ◌<◌, ◌≤◌, length, Ok, Err};
ghost use Rattle.digest.specs.Numbers.{fault_number};
ghost use Rattle.sha256.specs.Functions.{start};
ghost use Rattle.sha256.specs.Message.{sha256};
ghost use Rattle.sha256.specs.Stream.{none, sha_meaning, Streams};
ghost use Rattle.std.proofs.Common.{rules};

mod compression;

use compression::compress;
use digest::{Digest, Fault};

// A running SHA-256: the hash value after the whole blocks, the block in hand, and the number of words fed. The block is an
// array, as the board has fixed memory.
#[derive(Clone, Copy)]
pub struct Sha256 {
    chain: [u32; 8],
    part: [u32; 16],
    count: u32,
    ghost ok: { count ≤ 65536 },
}

impl Sha256 {
    pub fn new() -> Sha256
        ensures chain { result.chain ≡ start }
        ensures part { result.part ≡ none }
        ensures count { result.count ≡ 0 }
    {
        Sha256 {
            chain: [
                0x6a09e667, 0xbb67ae85, 0x3c6ef372, 0xa54ff53a, 0x510e527f, 0x9b05688c, 0x1f83d9ab,
                0x5be0cd19,
            ],
            part: [0; 16],
            count: 0,
        }
    }
}

impl Digest for Sha256 {
    ghost meaning = { sha_meaning };

    ghost state = { λ d. record { chain = d.chain; part = d.part } };

    ghost count = { λ d. d.count };

    const BLOCK: usize = 16;

    ghost BLOCK = { 16 };

    ghost block = { Prim.search rules };

    ghost range = { Prim.search rules };

    fn clear(&mut self) {
        *self = Sha256::new();
    }

    fn feed(&mut self, word: u32) -> Result<(), Fault> {
        if self.count == 65536 {
            return Err(Fault::Full);
        }
        let place = (self.count % 16) as usize;
        self.part[place] = word;
        if place == 15 {
            compress(&mut self.chain, &self.part);
            self.part = [0; 16];
        }
        self.count += 1;
        Ok(())
    }

    fn result(&self) -> [u32; 8] {
        let place = (self.count % 16) as usize;
        let bits = self.count * 32;
        let mut hash = self.chain;
        let mut last = self.part;
        last[place] = 0x80000000;
        if place >= 14 {
            compress(&mut hash, &last);
            last = [0; 16];
        }
        last[14] = 0;
        last[15] = bits;
        compress(&mut hash, &last);
        hash
    }
}

// The standard's hash of the words, fed one by one. Declined exactly when there are more than 65,536.
// Feeding any list of words to a cleared digest and asking for the result is the standard's hash of it.
#[tactic(auto, using(digest::proofs::Feeds::fed_take, crate::proofs::Whole::streams))]
pub fn hash(words: &[u32]) -> Result<[u32; 8], Fault>
    ensures answer { elim result [ Ok h ↦ (length words.now ≤ 65536) × (h ≡ sha256 words.now) | Err e ↦ (fault_number e ≡ 13) × (65536 < length words.now) ] }
    ensures streams { Streams }
{
    let mut digest = Sha256::new();
    for word in words {
        digest.feed(*word)?;
    }
    Ok(digest.result())
}
