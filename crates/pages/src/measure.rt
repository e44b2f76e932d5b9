// The measurement of an enclave. Digest, memory, board and number are passed on one by one: a struct of two `&mut` and a
// `&`, made for one call, is no plainer.
ghost use Rattle.std.specs.Prelude.{◌≡◌, ◌+◌, ◌*◌, ◌<◌, ◌≤◌, [], ◌∷◌};
ghost use Rattle.digest.specs.Meaning.{Cleared, hash};
ghost use Rattle.board.specs.Measures.{page_words, measured_page, measured_pages, measured_words};
ghost use Rattle.pages.specs.Fed.{Fed};

use board::{Board, Range};
use digest::{Digest, put};
use memory::Memory;

// Feeds the words of a page.
fn feed_page<M: Memory, D: Digest>(digest: &mut D, memory: &mut M, frame: u8)
    requires { D.count digest.old + 64 ≤ 65536 }
    ensures fed { Fed D.meaning (D.state digest.old) (D.count digest.old) (page_words (M.words memory.old) frame) (D.state digest.new) (D.count digest.new) }
    ensures same { M.words memory.new ≡ M.words memory.old }
{
    let start = 64 * frame as usize;
    for offset in 0..64 {
        if let Ok(word) = memory.read(start + offset) {
            put(digest, word);
        }
    }
}

// Feeds what is measured of one page of an enclave.
fn feed_entry<M: Memory, D: Digest>(
    digest: &mut D,
    memory: &mut M,
    board: &Board,
    number: u8,
    page: u8,
)
    requires { D.count digest.old + 65 ≤ 65536 }
    ensures fed { Fed D.meaning (D.state digest.old) (D.count digest.old) (measured_page (record { board = board.entry.now; words = M.words memory.old }) number page) (D.state digest.new) (D.count digest.new) }
    ensures same { M.words memory.new ≡ M.words memory.old }
{
    let measured = board.entry(number, page.into());
    put(digest, measured.permission.into());
    if measured.permission != 0 {
        feed_page(digest, memory, measured.frame);
    }
}

// Feeds what is measured of the pages of a range.
fn feed_range<M: Memory, D: Digest>(
    digest: &mut D,
    memory: &mut M,
    board: &Board,
    number: u8,
    range: Range,
)
    requires { D.count digest.old + 4160 ≤ 65536 }
    ensures fed { Fed D.meaning (D.state digest.old) (D.count digest.old) (measured_pages (record { board = board.entry.now; words = M.words memory.old }) number range.first range.count) (D.state digest.new) (D.count digest.new) }
    ensures same { M.words memory.new ≡ M.words memory.old }
{
    let first = range.first();
    let end = range.end();
    for page in first..end {
        feed_entry(digest, memory, board, number, page);
    }
}

// The digest of what is measured of an enclave; leaves the digest cleared and the memory's words as they were.
pub fn measure<M: Memory, D: Digest>(
    digest: &mut D,
    memory: &mut M,
    board: &Board,
    number: u8,
) -> [u32; 8]
    ensures value { result ≡ hash D.meaning (measured_words (record { board = board.entry.now; words = M.words memory.old }) number) }
    ensures same { M.words memory.new ≡ M.words memory.old }
    ensures cleared { Cleared D.meaning (D.state digest.new) (D.count digest.new) }
{
    let measured = board.enclave(number);
    digest.clear();
    put(digest, measured.first.into());
    put(digest, measured.count.into());
    put(digest, measured.entrypoint.into());
    if let Some(range) = Range::new(measured.first, measured.count) {
        feed_range(digest, memory, board, number, range);
    }
    let result = digest.result();
    digest.clear();
    result
}
