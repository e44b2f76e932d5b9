// A memory over a read-only image, whose pages are copied to the caller's words when first written.
ghost use Rattle.std.specs.Prelude.{◌≡◌, ℕ, ◌+◌, ◌*◌, ◌/◌, ◌<◌, ◌≤◌, true, false, length, replicate, slice_index, slice_index_or};
ghost use Rattle.memory.specs.Fills.{filled};
ghost use Rattle.memory.specs.Images.{image_word, image_size, image_words, meant, area_after, pages_after};
ghost use Rattle.memory.specs.Words.{fetched, stored, replaced};

use crate::{Fault, Memory};

// The most words that an image memory has.
pub const MOST_WORDS: usize = 4096;

#[derive(Drop)]
pub struct ImageMemory<'i, 'a> {
    image: &'i [u8],
    area: &'a mut [u32],
    // Which pages are copied to the area. The board has fixed memory.
    copied: [bool; 64],
}

// The word at a place of an image: four bytes, the highest first.
fn word_at(image: &[u8], place: usize) -> u32
    requires { place * 4 + 4 ≤ length image.now }
    ensures { result ≡ image_word image.now place }
{
    let at = place * 4;
    u32::from_be_bytes([image[at], image[at + 1], image[at + 2], image[at + 3]])
}

// Copies words of an image to the same places of the area.
fn copy_words(image: &[u8], area: &mut [u32], from: usize, count: usize)
    requires image { (from + count) * 4 ≤ length image.now }
    requires area { from + count ≤ length area.old }
    ensures { area.new ≡ filled area.old from (λ k. image_word image.now (from + k)) count }
{
    for (k, word) in area[from..from + count].iter_mut().enumerate() {
        *word = word_at(image, from + k);
    }
}

impl<'i, 'a> ImageMemory<'i, 'a> {
    // No page is copied yet, so every word is the image's.
    pub fn new(image: &'i [u8], area: &'a mut [u32]) -> ImageMemory<'i, 'a>
        ensures image { result.image ≡ image.entry }
        ensures area { result.area ≡ area.entry }
        ensures pages { result.copied ≡ replicate 64 false }
        ensures means { meant result ≡ image_words image.now (image_size image.now area.old) }
    {
        ImageMemory {
            image,
            area,
            copied: [false; 64],
        }
    }

    // The caller's area again: each page that was written holds the words that the memory means, the others are as they were.
    pub fn into_area(self) -> &'a mut [u32]
        ensures area { result ≡ self.entry.area }
        ensures words { (p : ℕ) → p < image_size self.entry.image.now self.entry.area.now → slice_index_or self.entry.copied (p / 64) false ≡ true → slice_index result.now p ≡ slice_index (meant self.entry) p }
    {
        let ImageMemory {
            image: _,
            area,
            copied: _,
        } = self;
        area
    }
}

impl<'i, 'a> Memory for ImageMemory<'i, 'a> {
    ghost words = { λ m. meant m };

    fn size(&self) -> usize
        ensures value { result ≡ length (meant self.now) }
        ensures least { result ≡ image_size self.now.image.now self.now.area.now }
    {
        (self.image.len() / 4).min(self.area.len()).min(MOST_WORDS)
    }

    // A read changes nothing.
    fn read(&mut self, place: usize) -> Result<u32, Fault>
        ensures answer { result ≡ fetched (meant self.old) place }
        ensures keeps { meant self.new ≡ meant self.old }
        ensures declined { length (meant self.old) ≤ place → self.new ≡ self.old }
        ensures still { self.new ≡ self.old }
    {
        if place >= self.size() {
            return Err(Fault::OutOfRange);
        }
        if self.copied[place / 64] {
            Ok(self.area[place])
        } else {
            Ok(word_at(self.image, place))
        }
    }

    // The first write to a page copies it, as far as the size reaches; then the word goes to the same place of the area.
    fn write(&mut self, place: usize, word: u32) -> Result<(), Fault>
        ensures answer { result ≡ stored (meant self.old) place }
        ensures after { meant self.new ≡ replaced (meant self.old) place word }
        ensures declined { length (meant self.old) ≤ place → self.new ≡ self.old }
        ensures image { self.new.image ≡ self.old.image }
        ensures area { self.new.area.now ≡ area_after self.old.image.now self.old.area.now self.old.copied place word }
        ensures pages { self.new.copied ≡ pages_after self.old.image.now self.old.area.now self.old.copied place }
        ensures same { self.new.area.ghost_name ≡ self.old.area.ghost_name }
    {
        let size = self.size();
        if place >= size {
            return Err(Fault::OutOfRange);
        }
        let page = place / 64;
        if !self.copied[page] {
            copy_words(self.image, self.area, page * 64, (size - page * 64).min(64));
            self.copied[page] = true;
        }
        self.area[place] = word;
        Ok(())
    }
}
