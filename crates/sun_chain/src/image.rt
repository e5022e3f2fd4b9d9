//! A memory image: the words that were read from a device, by address.
ghost use Rattle.std.specs.Prelude.{◌≡◌, ◌↔◌, ℕ, ◌+◌, ◌<◌, ◌≤◌, length, None, IfSome, IsSome, OnOk};
ghost use Rattle.std.specs.Prelude.{OnErr, ◌++◌, ◌-◌, replicate, true, vec_len};
ghost use Rattle.std.specs.Option.{option_map};
ghost use Rattle.std.specs.List.{list_all};
ghost use Rattle.sun_chain.specs.Replaced.{replaced};

use crate::fault::ImageFault;
use std::alloc::{AllocError, Global};

/// The number of register addresses of a Modbus device.
pub(crate) const ADDRESSES: u32 = 65536;

/// A memory image: the words that were read from a device, by address.
#[derive(Drop)]
pub struct Image {
    words: Vec<u16>,
    // For each index of `words`, whether that word was read from the device.
    read: Vec<bool>,
    ghost sized: { vec_len read ≤ vec_len words },
    ghost few: { vec_len read ≤ 65536 },
}

impl Image {
    ghost use Rattle.sun_chain.specs.Image.{add_words, word_in, words_in};

    /// Creates a memory image (the words read from a device) without words.
    pub fn new(alloc: Global) -> Self
        ensures { (address : ℕ) → word_in result address ≡ None }
    {
        Image {
            words: Vec::new(alloc),
            read: Vec::new(alloc),
        }
    }

    /// Writes words at consecutive addresses, and replaces earlier words there. Words past address
    /// 65535 are refused with `PastEnd`. On error, the image is unchanged.
    pub fn put(&mut self, address: u16, words: &[u16]) -> Result<(), ImageFault>
        ensures past_end { (result ≡ Err ImageFault.PastEnd)
            ↔ (65536 < address + length words.now) }
        ensures put { OnOk result
            ((at : ℕ) → word_in self.new at ≡ add_words (word_in self.old) address words.now at) }
        ensures err { OnErr result ((at : ℕ) → word_in self.new at ≡ word_in self.old at) }
    {
        let start = usize::from(address);
        if words.len() > ADDRESSES as usize - start {
            return Err(ImageFault::PastEnd);
        }
        let end = start + words.len();
        if self.make_room(end).is_err() {
            return Err(ImageFault::Memory);
        }
        self.overwrite(start, words);
        Ok(())
    }

    // Extends the memory image (the words read from a device) to cover all addresses below `end`.
    fn make_room(&mut self, end: usize) -> Result<(), AllocError>
        requires { end ≤ 65536 }
        ensures room { OnOk result (end ≤ vec_len self.new.read) }
        ensures same { (at : ℕ) → word_in self.new at ≡ word_in self.old at }
    {
        pad(&mut self.words, end, 0)?;
        pad(&mut self.read, end, false)
    }

    fn overwrite(&mut self, start: usize, words: &[u16])
        requires { start + length words.now ≤ vec_len self.old.read }
        ensures { (at : ℕ) → word_in self.new at ≡ add_words (word_in self.old) start words.now at }
    {
        copy_at(&mut self.words, start, words);
        mark_at(&mut self.read, start, words.len());
    }

    /// Returns the word of a memory image at the address, or `None` if the word was not read from
    /// the device.
    pub fn word(&self, address: u16) -> Option<u16>
        ensures { result ≡ word_in self.now address }
    {
        self.word_at(u32::from(address))
    }

    /// Returns the word of a memory image at an address, or `None` if the word was not read from
    /// the device. Addresses past 65535 have no word.
    pub(crate) fn word_at(&self, address: u32) -> Option<u16>
        ensures { result ≡ word_in self.now address }
    {
        match self.read.get(address as usize) {
            Some(true) => self.words.get(address as usize).copied(),
            _ => None,
        }
    }

    /// Returns the `count` words of a memory image from `address`, or `None` unless all of them
    /// were read from the device.
    pub(crate) fn words_at(&self, address: u32, count: u16) -> Option<&[u16]>
        requires { 1 ≤ count }
        ensures words { option_map (λ words. words.now) result
            ≡ words_in (word_in self.now) address count }
        ensures length { IfSome result (λ words. length words.now ≡ count) }
        ensures inside { IsSome result → address + count ≤ 65536 }
    {
        let start = address as usize;
        let end = start + usize::from(count);
        if end <= self.read.len() && is_all_true(&self.read[start..end]) {
            Some(&self.words[start..end])
        } else {
            None
        }
    }
}

fn is_all_true(marks: &[bool]) -> bool
    ensures { result ≡ list_all (λ mark. mark) marks.now }
{
    marks.iter().all(|mark| *mark)
}

// Extends a list to at least `size` items with copies of `value`.
fn pad<T: Copy>(items: &mut Vec<T>, size: usize, value: T) -> Result<(), AllocError>
    ensures longer { OnOk result
        (items.new.items ≡ items.old.items ++ replicate (size - vec_len items.old) value) }
    ensures err { OnErr result (items.new.items ≡ items.old.items) }
{
    if items.len() < size {
        items.resize(size, value)?;
    }
    Ok(())
}

fn copy_at(items: &mut Vec<u16>, start: usize, words: &[u16])
    requires { start + length words.now ≤ vec_len items.old }
    ensures { items.new.items ≡ replaced start (length words.now) words.now items.old.items }
{
    items[start..start + words.len()].copy_from_slice(words);
}

fn mark_at(marks: &mut Vec<bool>, start: usize, count: usize)
    requires { start + count ≤ vec_len marks.old }
    ensures { marks.new.items ≡ replaced start count (replicate count true) marks.old.items }
{
    marks[start..start + count].fill(true);
}
