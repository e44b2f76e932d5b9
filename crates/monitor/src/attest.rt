// The attestation of the enclave that runs.
ghost use Rattle.std.specs.Prelude.{◌≡◌, true, false, is_ok};
ghost use Rattle.digest.specs.Meaning.{Cleared};
ghost use Rattle.board.specs.declared.Call.TheVariants.{Attest};
ghost use Rattle.board.specs.Answers.{reply_by};
ghost use Rattle.monitor.specs.Gate.{Does};

use crate::Monitor;
use board::*;
use digest::{Digest, tag};
use memory::Memory;

impl<M: Memory, D: Digest> Monitor<M, D> {
    // Writes the measurement of the enclave that runs, and then its tag with the word, to the caller's sixteen words. A
    // declined one leaves them; an accepted one leaves the digest cleared, since its state would tell of the key.
    pub fn attest(&mut self, word: u32, words: &mut [u32; 16]) -> Result<(), Decline>
        ensures does { Does M.Memory D.meaning (Attest word) self.old (reply_by (λ _. words.new) result) self.new }
        ensures kept { is_ok result ≡ false → words.new ≡ words.old }
        ensures cleared { is_ok result ≡ true → Cleared D.meaning (D.state self.new.digest) (D.count self.new.digest) }
    {
        let measurement = self.questions().may_leave()?.measurement;
        let tag = tag(&mut self.digest, &self.key, &measurement, word);
        let (front, back) = words.split_at_mut(8);
        front.copy_from_slice(&measurement);
        back.copy_from_slice(&tag);
        Ok(())
    }
}
