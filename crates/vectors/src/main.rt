// The published vectors of SHA-256 and of HMAC over it, and HMAC over a fold with a block of 34 words.
// Each step says what it asks, what was answered, what was expected, and whether the two are equal.
#![tactic(auto)]

ghost use Rattle.std.specs.Prelude.{◌≡◌, ℕ, ◌+◌, ◌<◌, ◌≤◌, List, [], ◌∷◌, ◌++◌, length, Ok, Err};
ghost use Rattle.digest.specs.Meaning.{hmac_of, hmac as hmac_over};
ghost use Rattle.digest.specs.Numbers.{fault_number};
ghost use Rattle.sha256.specs.Message.{sha256};
ghost use Rattle.vectors.specs.Wide.{wide_meaning};

mod cases;
mod messages;
mod wide;

use crate::cases::CASES;
use crate::messages::MESSAGES;
use digest::{Digest, Fault, hmac, tag};
use sha256::{Sha256, hash};
use std::io;
use wide::WideFold;

// HMAC over SHA-256, where SHA-256 is the standard's hash of a whole message.
#[tactic(auto, using(sha256::proofs::Whole::hmac_streams))]
fn hmac_sha256(key: &[u32; 8], text: &[u32]) -> Result<[u32; 8], Fault>
    ensures { elim result [ Ok t ↦ (16 + length text.now ≤ 65536) × (t ≡ hmac_of sha256 16 key.now text.now) | Err e ↦ (fault_number e ≡ 13) × (65536 < 16 + length text.now) ] }
{
    let mut digest = Sha256::new();
    hmac(&mut digest, key, text)
}

// HMAC over the fold with a block of 34 words: another block length, and no proof of its own.
fn hmac_wide(key: &[u32; 8], text: &[u32]) -> Result<[u32; 8], Fault>
    ensures { elim result [ Ok t ↦ (34 + length text.now ≤ 65536) × (t ≡ hmac_over wide_meaning key.now text.now) | Err e ↦ (fault_number e ≡ 13) × (65536 < 34 + length text.now) ] }
{
    let mut digest = WideFold::new();
    hmac(&mut digest, key, text)
}

fn tag_wide(key: &[u32; 8], measurement: &[u32; 8], word: u32) -> [u32; 8]
    ensures { result ≡ hmac_over wide_meaning key.now (measurement.now ++ word ∷ []) }
{
    let mut digest = WideFold::new();
    tag(&mut digest, key, measurement, word)
}

fn show(rt: &HostRuntime, what: &str, words: &[u32]) -> io::Result<()> {
    print!(rt; "  {what}")?;
    for word in words {
        print!(rt; " {word:08x}")?;
    }
    println!(rt; "")
}

// How many answers were compared, and how many were as expected.
#[derive(Drop)]
struct Score {
    compared: u32,
    equal: u32,
}

impl Score {
    fn count(&mut self, rt: &HostRuntime, equal: bool) -> io::Result<()> {
        self.compared = self.compared.saturating_add(1);
        if equal {
            self.equal = self.equal.saturating_add(1);
            println!(rt; "  equal")
        } else {
            println!(rt; "  NOT EQUAL")
        }
    }

    // Compares as many words of an answer as are expected.
    fn compare(
        &mut self,
        rt: &HostRuntime,
        answer: Result<[u32; 8], Fault>,
        expected: &[u32],
    ) -> io::Result<()> {
        match answer {
            Ok(words) => {
                let shown = &words[..expected.len().min(8)];
                show(rt, "answer  ", shown)?;
                show(rt, "expected", expected)?;
                self.count(rt, shown == expected)
            }
            Err(fault) => {
                let number = fault.number();
                println!(rt; "  declined with {number}")?;
                show(rt, "expected", expected)?;
                self.count(rt, false)
            }
        }
    }

    // Expects a decline with 13.
    fn declines(&mut self, rt: &HostRuntime, answer: Result<[u32; 8], Fault>) -> io::Result<()> {
        match answer {
            Ok(words) => {
                show(rt, "answer  ", &words)?;
                println!(rt; "  expected declined with 13")?;
                self.count(rt, false)
            }
            Err(fault) => {
                let number = fault.number();
                println!(rt; "  declined with {number}")?;
                println!(rt; "  expected declined with 13")?;
                self.count(rt, number == 13)
            }
        }
    }
}

// The number of words that a digest takes.
const MOST: usize = 65536;

// HMAC over a digest of the longest text, and of one word more. The zeros are its caller's, whose array is large.
fn limits_of_hmac<F: Fn(&[u32]) -> Result<[u32; 8], Fault>>(
    rt: &HostRuntime,
    score: &mut Score,
    digest: &str,
    block: usize,
    hmac: F,
    zeros: &[u32; MOST + 1],
    expected: &[u32; 8],
) -> io::Result<()>
    requires block { block ≤ 65536 }
    requires hmac { F.IsAlwaysCallable hmac }
{
    let longest = MOST - block;
    println!(rt; "HMAC over {digest} of {longest} zeros, block {block}")?;
    score.compare(rt, hmac(&zeros[..longest]), expected)?;
    println!(rt;
        "HMAC over {digest} of {} zeros, block {block}",
        longest + 1
    )?;
    score.declines(rt, hmac(&zeros[..=longest]))
}

// The longest texts, and one word more.
fn limits(rt: &HostRuntime, score: &mut Score, key: &[u32; 8]) -> io::Result<()> {
    let zeros = [0; MOST + 1];
    println!(rt; "SHA-256 of {MOST} zeros")?;
    score.compare(
        rt,
        hash(&zeros[..MOST]),
        &[
            0x8a39d2ab, 0xd3999ab7, 0x3c34db24, 0x76849cdd, 0xf303ce38, 0x9b358268, 0x50f9a700,
            0x589b4a90,
        ],
    )?;
    println!(rt; "SHA-256 of {} zeros", MOST + 1)?;
    score.declines(rt, hash(&zeros))?;
    limits_of_hmac(
        rt,
        score,
        "SHA-256",
        Sha256::BLOCK,
        |text: &[u32]| hmac_sha256(key, text),
        &zeros,
        &[
            0xdd4a1222, 0x7f3dcc86, 0x671bf44a, 0x240f5a09, 0xcce686ac, 0x73d777b4, 0x5df77df5,
            0x6c958dbf,
        ],
    )?;
    limits_of_hmac(
        rt,
        score,
        "the wide fold",
        WideFold::BLOCK,
        |text: &[u32]| hmac_wide(key, text),
        &zeros,
        &[
            0xd6565675, 0x56565612, 0xec6c6c5c, 0x6c6c6c2d, 0x5ddddd8c, 0xddddddbf, 0x5dddddaf,
            0xdddddd5e,
        ],
    )
}

fn main(rt: HostRuntime) -> io::Result<()> {
    let mut score = Score {
        compared: 0,
        equal: 0,
    };
    let key = [1, 2, 3, 4, 5, 6, 7, 8];
    let measurement = [
        0x01020304, 0x02040608, 0x0306090c, 0x04080c10, 0x050a0f14, 0x060c1218, 0x070e151c,
        0x08101820,
    ];
    for message in MESSAGES {
        println!(rt; "SHA-256 of {}", message.what)?;
        score.compare(&rt, hash(message.words), &message.hash)?;
    }
    for case in CASES {
        println!(rt; "HMAC over SHA-256: RFC 4231, {}", case.what)?;
        score.compare(&rt, hmac_sha256(&case.key, case.text), case.tag)?;
    }
    println!(rt; "tag over SHA-256 of a measurement and the word 7")?;
    let answer = tag(&mut Sha256::new(), &key, &measurement, 7);
    score.compare(
        &rt,
        Ok(answer),
        &[
            0x8cbb14b3, 0x431601de, 0xfa24aa8a, 0x75b6e750, 0x04fbb957, 0x67358329, 0x694de82d,
            0xa47617f4,
        ],
    )?;
    println!(rt; "tag over the wide fold of a measurement and the word 7")?;
    let answer = tag_wide(&key, &measurement, 7);
    score.compare(
        &rt,
        Ok(answer),
        &[
            0x06090c47, 0x050f11db, 0x49405b42, 0x465e566e, 0x2026241d, 0x8a8c8ea0, 0x8b8e81a4,
            0x8c808478,
        ],
    )?;
    limits(&rt, &mut score, &key)?;
    let Score { compared, equal } = score;
    println!(rt; "{equal} of {compared} equal")
}
