// A digest takes words of 32 bits one by one, and answers eight.
#![tactic(auto)]

ghost use Rattle.std.specs.Prelude.{◌≡◌, ℕ, ◌+◌, ◌-◌, ◌<◌, ◌≤◌, List, [], ◌∷◌, ◌++◌, length, Ok, Err};
ghost use Rattle.digest.specs.Fold.{fold_meaning, zeros};
ghost use Rattle.digest.specs.Meaning.{Meaning, Cleared, fed, hash, keyed, hmac};
ghost use Rattle.digest.specs.Numbers.{fault_number};
ghost use Rattle.std.proofs.Common.{rules};

// Why a word or a text is declined: more than 65,536 words in all.
#[derive(Clone, Copy, PartialEq, Eq)]
pub enum Fault {
    Full = 13,
}

impl Fault {
    pub fn number(self) -> u32
        ensures { result ≡ fault_number self }
    {
        self as u32
    }
}

// A digest means a state and a count of the words fed.
pub trait Digest: Sized {
    ghost meaning: { Meaning };

    ghost state: { Self → meaning.State };

    ghost count: { Self → ℕ };

    // The block length in words.
    const BLOCK: usize;

    ghost BLOCK: { ℕ };

    // Forgets the words fed.
    fn clear(&mut self)
        ensures state { state self.new ≡ meaning.first }
        ensures count { count self.new ≡ 0 };

    // Takes one word, or declines it and is as before, exactly when 65,536 were fed.
    fn feed(&mut self, word: u32) -> Result<(), Fault>
        ensures state { elim result [ Ok _ ↦ state self.new ≡ meaning.next (state self.old) (count self.old) word | Err _ ↦ self.new ≡ self.old ] }
        ensures count { elim result [ Ok _ ↦ (count self.old < 65536) × (count self.new ≡ count self.old + 1) | Err e ↦ (fault_number e ≡ 13) × (count self.old ≡ 65536) ] };

    // The eight words of what was fed so far.
    fn result(&self) -> [u32; 8]
        ensures { result ≡ meaning.sum (state self.now) (count self.now) };

    ghost block: { meaning.block ≡ BLOCK };

    ghost range: { (8 ≤ BLOCK) × (BLOCK ≤ 1024) };
}

// A digest of eight lanes, for tests: word i is turned into lane i mod 8.
#[derive(Clone, Copy)]
pub struct Fold {
    lanes: [u32; 8],
    count: u32,
    ghost ok: { count ≤ 65536 },
}

impl Fold {
    pub fn new() -> Fold
        ensures lanes { result.lanes ≡ zeros }
        ensures count { result.count ≡ 0 }
    {
        Fold {
            lanes: [0; 8],
            count: 0,
        }
    }
}

impl Digest for Fold {
    ghost meaning = { fold_meaning };

    ghost state = { λ d. d.lanes };

    ghost count = { λ d. d.count };

    const BLOCK: usize = 16;

    ghost BLOCK = { 16 };

    ghost block = { Prim.search rules };

    ghost range = { Prim.search rules };

    fn clear(&mut self) {
        *self = Fold::new();
    }

    fn feed(&mut self, word: u32) -> Result<(), Fault> {
        if self.count == 65536 {
            return Err(Fault::Full);
        }
        let lane = (self.count % 8) as usize;
        let turned = self.lanes[lane].rotate_left(1);
        self.lanes[lane] = turned ^ word;
        self.count += 1;
        Ok(())
    }

    fn result(&self) -> [u32; 8] {
        self.lanes
    }
}

// The pads of HMAC: what each word of the key's block is masked with.
const INNER: u32 = 0x36363636;

const OUTER: u32 = 0x5c5c5c5c;

// Feeds a word where there is room, and else changes nothing.
pub fn put<D: Digest>(digest: &mut D, word: u32)
    ensures state { D.count digest.old < 65536 → D.state digest.new ≡ D.meaning.next (D.state digest.old) (D.count digest.old) word }
    ensures count { D.count digest.old < 65536 → D.count digest.new ≡ D.count digest.old + 1 }
    ensures full { 65536 ≤ D.count digest.old → digest.new ≡ digest.old }
{
    let _ = digest.feed(word);
}

// Feeds every word of a slice, for which there is room. The loop says so, since to ask again for each word takes over twice
// the time with a digest as light as the fold.
#[tactic(auto, using(crate::proofs::Feeds::fed_take))]
fn put_all<D: Digest>(digest: &mut D, words: &[u32])
    requires { D.count digest.old + length words.now ≤ 65536 }
    ensures state { D.state digest.new ≡ fed D.meaning (D.state digest.old) (D.count digest.old) words.now }
    ensures count { D.count digest.new ≡ D.count digest.old + length words.now }
{
    for w in words {
        match digest.feed(*w) {
            Ok(()) => {}
            Err(_) => unreachable(),
        }
    }
}

// Clears the digest and feeds one block: the key, filled with zeros, under a mask.
#[tactic(auto, using(crate::proofs::Feeds::fed_key, crate::proofs::Feeds::fed_zero, crate::proofs::Feeds::length_keyed))]
fn put_key<D: Digest>(digest: &mut D, key: &[u32; 8], mask: u32)
    ensures state { D.state digest.new ≡ fed D.meaning D.meaning.first 0 (keyed D.meaning.block key.now mask) }
    ensures count { D.count digest.new ≡ D.meaning.block }
    ensures block { length (keyed D.meaning.block key.now mask) ≡ D.meaning.block }
{
    digest.clear();
    for word in key {
        put(digest, *word ^ mask);
    }
    for _ in key.len()..D::BLOCK {
        put(digest, mask);
    }
}

// The outer half of HMAC, over what was fed so far; leaves the digest cleared.
#[tactic(auto, using(crate::proofs::Feeds::hash_append))]
fn close<D: Digest>(digest: &mut D, key: &[u32; 8]) -> [u32; 8]
    ensures tag { result ≡ hash D.meaning (keyed D.meaning.block key.now 0x5c5c5c5c ++ D.meaning.sum (D.state digest.old) (D.count digest.old)) }
    ensures cleared { Cleared D.meaning (D.state digest.new) (D.count digest.new) }
{
    let inner = digest.result();
    put_key(digest, key, OUTER);
    put_all(digest, &inner);
    let tag = digest.result();
    digest.clear();
    tag
}

// HMAC of the text under the key; leaves the digest cleared, since its state would tell of the key.
// Declined exactly when a block and the text have more than 65,536 words, and then nothing has changed.
#[tactic(auto, using(crate::proofs::Feeds::hash_append))]
pub fn hmac<D: Digest>(digest: &mut D, key: &[u32; 8], text: &[u32]) -> Result<[u32; 8], Fault>
    ensures answer { elim result [ Ok tag ↦ (D.meaning.block + length text.now ≤ 65536) × (tag ≡ hmac D.meaning key.now text.now) | Err e ↦ (fault_number e ≡ 13) × (65536 < D.meaning.block + length text.now) ] }
    ensures after { elim result [ Ok _ ↦ Cleared D.meaning (D.state digest.new) (D.count digest.new) | Err _ ↦ digest.new ≡ digest.old ] }
{
    if text.len() > 65536 - D::BLOCK {
        return Err(Fault::Full);
    }
    put_key(digest, key, INNER);
    put_all(digest, text);
    Ok(close(digest, key))
}

// The tag of a measurement and one word, under a key: HMAC of the nine words.
#[tactic(auto, using(crate::proofs::Feeds::hash_push))]
pub fn tag<D: Digest>(digest: &mut D, key: &[u32; 8], measurement: &[u32; 8], word: u32) -> [u32; 8]
    ensures tag { result ≡ hmac D.meaning key.now (measurement.now ++ word ∷ []) }
    ensures cleared { Cleared D.meaning (D.state digest.new) (D.count digest.new) }
{
    put_key(digest, key, INNER);
    put_all(digest, measurement);
    put(digest, word);
    close(digest, key)
}
