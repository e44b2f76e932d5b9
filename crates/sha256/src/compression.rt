// The compression function of SHA-256: FIPS 180-4, 6.2.2.
ghost use Rattle.std.specs.Prelude.{◌≡◌, ℕ, ◌+◌, ◌-◌, ◌<◌, ◌≤◌, length};
ghost use Rattle.sha256.specs.Functions.{ch, maj, Σ0, Σ1, σ0, σ1};
ghost use Rattle.sha256.specs.Compression.{word_at, working, t1, t2, round, rounds, added, compressed};

const K: [u32; 64] = [
    0x428a2f98, 0x71374491, 0xb5c0fbcf, 0xe9b5dba5, 0x3956c25b, 0x59f111f1, 0x923f82a4, 0xab1c5ed5,
    0xd807aa98, 0x12835b01, 0x243185be, 0x550c7dc3, 0x72be5d74, 0x80deb1fe, 0x9bdc06a7, 0xc19bf174,
    0xe49b69c1, 0xefbe4786, 0x0fc19dc6, 0x240ca1cc, 0x2de92c6f, 0x4a7484aa, 0x5cb0a9dc, 0x76f988da,
    0x983e5152, 0xa831c66d, 0xb00327c8, 0xbf597fc7, 0xc6e00bf3, 0xd5a79147, 0x06ca6351, 0x14292967,
    0x27b70a85, 0x2e1b2138, 0x4d2c6dfc, 0x53380d13, 0x650a7354, 0x766a0abb, 0x81c2c92e, 0x92722c85,
    0xa2bfe8a1, 0xa81a664b, 0xc24b8b70, 0xc76c51a3, 0xd192e819, 0xd6990624, 0xf40e3585, 0x106aa070,
    0x19a4c116, 0x1e376c08, 0x2748774c, 0x34b0bcb5, 0x391c0cb3, 0x4ed8aa4a, 0x5b9cca4f, 0x682e6ff3,
    0x748f82ee, 0x78a5636f, 0x84c87814, 0x8cc70208, 0x90befffa, 0xa4506ceb, 0xbef9a3f7, 0xc67178f2,
];

// The working variables.
#[derive(Clone, Copy)]
pub struct Working {
    a: u32,
    b: u32,
    c: u32,
    d: u32,
    e: u32,
    f: u32,
    g: u32,
    h: u32,
}

fn choose(x: u32, y: u32, z: u32) -> u32
    ensures { result ≡ ch x y z }
{
    (x & y) ^ (!x & z)
}

fn majority(x: u32, y: u32, z: u32) -> u32
    ensures { result ≡ maj x y z }
{
    (x & y) ^ (x & z) ^ (y & z)
}

fn big0(x: u32) -> u32
    ensures { result ≡ Σ0 x }
{
    x.rotate_right(2) ^ x.rotate_right(13) ^ x.rotate_right(22)
}

fn big1(x: u32) -> u32
    ensures { result ≡ Σ1 x }
{
    x.rotate_right(6) ^ x.rotate_right(11) ^ x.rotate_right(25)
}

fn small0(x: u32) -> u32
    ensures { result ≡ σ0 x }
{
    x.rotate_right(7) ^ x.rotate_right(18) ^ (x >> 3)
}

fn small1(x: u32) -> u32
    ensures { result ≡ σ1 x }
{
    x.rotate_right(17) ^ x.rotate_right(19) ^ (x >> 10)
}

// The word of the schedule at t, from the words before it.
#[tactic(auto, unfolding(crate::specs::Compression::word_at))]
fn next_word(w: &[u32; 64], t: usize) -> u32
    requires { (16 ≤ t) × (t < 64) }
    ensures { result ≡ word_at w.now t }
{
    small1(w[t - 2])
        .wrapping_add(w[t - 7])
        .wrapping_add(small0(w[t - 15]))
        .wrapping_add(w[t - 16])
}

// The working variables at the start of a block.
fn begin(hash: &[u32; 8]) -> Working
    ensures { result ≡ working hash.now }
{
    let [a, b, c, d, e, f, g, h] = *hash;
    Working {
        a,
        b,
        c,
        d,
        e,
        f,
        g,
        h,
    }
}

#[tactic(auto, unfolding(crate::specs::Compression::t1))]
fn temp1(v: Working, k: u32, w: u32) -> u32
    ensures { result ≡ t1 v k w }
{
    v.h.wrapping_add(big1(v.e))
        .wrapping_add(choose(v.e, v.f, v.g))
        .wrapping_add(k)
        .wrapping_add(w)
}

#[tactic(auto, unfolding(crate::specs::Compression::t2))]
fn temp2(v: Working) -> u32
    ensures { result ≡ t2 v }
{
    big0(v.a).wrapping_add(majority(v.a, v.b, v.c))
}

// One round.
#[tactic(auto, unfolding(crate::specs::Compression::round))]
fn turn(v: Working, k: u32, w: u32) -> Working
    ensures { result ≡ round v k w }
{
    let first = temp1(v, k, w);
    let second = temp2(v);
    Working {
        a: first.wrapping_add(second),
        b: v.a,
        c: v.b,
        d: v.c,
        e: v.d.wrapping_add(first),
        f: v.e,
        g: v.f,
        h: v.g,
    }
}

// The working variables after the first sixteen rounds, which take the block's own words.
#[tactic(auto, using(crate::proofs::Steps::rounds_none))]
fn first_rounds(hash: &[u32; 8], block: &[u32; 16]) -> Working
    ensures { result ≡ rounds 16 block.now (working hash.now) }
{
    let mut v = begin(hash);
    for (k, word) in K.iter().zip(block) {
        v = turn(v, *k, *word);
    }
    v
}

// Adds the working variables to the hash value.
#[tactic(auto, unfolding(crate::specs::Compression::added))]
fn end(hash: &mut [u32; 8], v: Working)
    ensures { hash.new ≡ added hash.old v }
{
    *hash = [
        v.a.wrapping_add(hash[0]),
        v.b.wrapping_add(hash[1]),
        v.c.wrapping_add(hash[2]),
        v.d.wrapping_add(hash[3]),
        v.e.wrapping_add(hash[4]),
        v.f.wrapping_add(hash[5]),
        v.g.wrapping_add(hash[6]),
        v.h.wrapping_add(hash[7]),
    ];
}

// The hash value after one block. A later word of the schedule is made in the round that takes it.
#[tactic(auto, unfolding(crate::specs::Compression::compressed))]
pub fn compress(hash: &mut [u32; 8], block: &[u32; 16])
    ensures { hash.new ≡ compressed hash.old block.now }
{
    let mut v = first_rounds(hash, block);
    let mut w = [0; 64];
    w[..16].copy_from_slice(block);
    // An index, since each word is made from four earlier ones: a schedule of its own and one zip proves, and is slower.
    for t in 16..64 {
        w[t] = next_word(&w, t);
        v = turn(v, K[t], w[t]);
    }
    end(hash, v);
}
