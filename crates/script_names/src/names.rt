//! The names of a script, in the order of their first making.

ghost use Rattle.std.specs.Prelude.{◌≡◌, ℕ, All, ◌<◌, ◌-◌, ◌^◌, List, [], length, map, IfOk, None, Some, unwrap_or, IsUtf8};
ghost use Rattle.script_names.specs.Names.{Name, place_in, kind_in, with_name};
ghost use Rattle.script_names.specs.Index.{known_of, hash_of, bucket_of, first_for, IsIndex};

use crate::firsts::Firsts;
use frame_ast::NameTexts;
use frame_ast::name_kind::NameKind;
use job_base::NoMemory;
use kernel_text::is_same;
use std::alloc::Global;
use std::hash::{FoldHasher, Hasher};
use std::marker::Model;
use std::str;
use text_places::TextPlaces;

/// A name, and what it stands for.
#[derive(Clone, Copy, Drop)]
pub struct Entry<'a> {
    pub text: &'a [u8],
    pub kind: NameKind,
}

// A name as text. That its bytes are is proved, so they aren't looked at once more.
fn text_of(bytes: &[u8]) -> &str
    requires { IsUtf8 bytes.now }
    ensures { result.now ≡ bytes.now }
{
    unsafe { str::from_utf8_unchecked(bytes) }
}

// The hash by which a name is found: half of what std's hasher makes of its bytes.
fn hash_of(text: &[u8]) -> u32
    ensures { result ≡ hash_of text.now }
{
    let mut hasher = FoldHasher::default();
    hasher.write(text);
    (hasher.finish() >> 32) as u32
}

// The bucket of a name, where there are so many: each has as large a part of all hashes.
fn bucket_of(count: usize, text: &[u8]) -> usize
    requires some { 0 < count }
    requires few { count < 2 ^ 32 }
    ensures bucket { result ≡ bucket_of count text.now }
    ensures within { result < count }
{
    ((u64::from(hash_of(text)) * count as u64) >> 32) as usize
}

// The place of the first name of a text's bucket.
fn first_for(firsts: &Firsts, text: &[u8]) -> Option<u32>
    requires some { 0 < length firsts.now }
    requires few { length firsts.now < 2 ^ 32 }
    ensures { result ≡ first_for firsts.now text.now }
{
    firsts.get(bucket_of(firsts.len(), text))
}

/// The most buckets that names have.
const MOST_BUCKETS: usize = 262_144;

/// The names that are known, each with what it stands for. A name's place is its number among them.
///
/// They stand in buckets by their hashes. Most are the first of their bucket, and a look-up of one compares its bytes
/// once. The others are found by another part of their hashes. An enemy can make names of one hash: all but the first
/// two of them are found in a tree, so no look-up takes more comparisons than that is deep.
#[derive(Drop)]
pub struct Names<'a> {
    /// The place of the first name of each bucket.
    firsts: Firsts,
    /// The places of the names in whose bucket an earlier name is.
    others: TextPlaces<'a>,
    entries: Vec<Entry<'a>>,
}

impl<'a> Model for Names<'a> {
    ghost Value = { List Name };

    ghost view = { λ s. map known_of s.entries.items };

    ghost invariant = { λ s. IsIndex s.firsts s.others s.entries.items };
}

impl<'a> Names<'a> {
    ghost use Rattle.std.specs.Option.{option_map};

    /// No names yet, in so many buckets, but at least one and at most 262,144.
    ///
    /// Look-ups are fast where there are some times as many buckets as names: of 65,536 names in 262,144 buckets, some
    /// 12 in 100 find another one in theirs.
    pub fn new(alloc: Global, buckets: usize) -> Result<Self, NoMemory>
        ensures { IfOk result (λ names. names ≡ []) }
    {
        Ok(Names {
            firsts: Firsts::none(alloc, buckets.clamp(1, MOST_BUCKETS))?,
            // Where there are four buckets for each name, one name in eight is among the others.
            others: TextPlaces::new(alloc, buckets / 4),
            entries: Vec::new(alloc),
        })
    }

    /// How many names are known.
    pub fn len(&self) -> u32
        ensures length { result ≡ length self.now }
        ensures few { length self.now < 2 ^ 32 }
    {
        self.entries.len() as u32
    }

    // The place of a name.
    fn place(&self, text: &[u8]) -> Option<u32>
        ensures { result ≡ place_in self.now text.now }
    {
        let first = first_for(&self.firsts, text)?;
        if is_same(self.entries[first as usize].text, text) {
            return Some(first);
        }
        self.others.get(text)
    }

    /// The place of a name, and what it stands for.
    pub fn get(&self, text: &[u8]) -> Option<(u32, NameKind)>
        ensures place { option_map (λ r. r.0) result ≡ place_in self.now text.now }
        ensures kind { option_map (λ r. r.1) result ≡ kind_in self.now text.now }
    {
        let place = self.place(text)?;
        Some((place, self.entries[place as usize].kind))
    }

    /// The names as texts.
    pub fn texts(&self, alloc: Global) -> Result<NameTexts, NoMemory>
        requires { All (λ name. IsUtf8 name.text) self.now }
        ensures { IfOk result (λ texts. texts ≡ map (λ n. n.text) self.now) }
    {
        let mut texts = NameTexts::new(alloc);
        for entry in &self.entries {
            texts.push(text_of(entry.text))?;
        }
        Ok(texts)
    }

    /// Makes a name that isn't known.
    pub fn make(&mut self, text: &'a [u8], kind: NameKind) -> Result<(), NoMemory>
        requires room { length self.old < 2 ^ 32 - 1 }
        requires new { place_in self.old text.now ≡ None }
        ensures { IfOk result (λ _. self.new ≡ with_name self.old text.now kind) }
    {
        let place = self.entries.len() as u32;
        let bucket = bucket_of(self.firsts.len(), text);
        match self.firsts.get(bucket) {
            None => {
                self.entries.push(Entry { text, kind })?;
                self.firsts.set(bucket, place);
            }
            Some(_) => {
                self.entries.push(Entry { text, kind })?;
                if self.others.put(text, place).is_err() {
                    self.entries.pop();
                    return Err(NoMemory);
                }
            }
        }
        Ok(())
    }

    /// Makes a name, unless it is known. Answers its place, and what it stands for.
    // One hash finds the place of a known name, or the bucket of a new one. Of names whose bucket another name has, few
    // in long scripts, it is made once more.
    #[inline(always)]
    pub fn find_or_make(
        &mut self,
        text: &'a [u8],
        kind: NameKind,
    ) -> Result<(u32, NameKind), NoMemory>
        ensures place { IfOk result (λ found. place_in self.new text.now ≡ Some found.0) }
        ensures kind { IfOk result (λ found. found.1 ≡ unwrap_or (kind_in self.old text.now) kind) }
        ensures names { IfOk result (λ _. self.new ≡ with_name self.old text.now kind) }
    {
        let place = self.entries.len() as u32;
        let bucket = bucket_of(self.firsts.len(), text);
        match self.firsts.get(bucket) {
            None => {
                if place == u32::MAX {
                    return Err(NoMemory);
                }
                self.entries.push(Entry { text, kind })?;
                self.firsts.set(bucket, place);
                Ok((place, kind))
            }
            Some(first) => {
                let entry = self.entries[first as usize];
                if is_same(entry.text, text) {
                    return Ok((first, entry.kind));
                }
                self.get_or_make(text, kind)
            }
        }
    }

    // The same, by two looks.
    #[inline(never)]
    fn get_or_make(&mut self, text: &'a [u8], kind: NameKind) -> Result<(u32, NameKind), NoMemory>
        ensures place { IfOk result (λ found. place_in self.new text.now ≡ Some found.0) }
        ensures kind { IfOk result (λ found. found.1 ≡ unwrap_or (kind_in self.old text.now) kind) }
        ensures names { IfOk result (λ _. self.new ≡ with_name self.old text.now kind) }
    {
        if let Some(found) = self.get(text) {
            return Ok(found);
        }
        let place = self.len();
        if place == u32::MAX {
            return Err(NoMemory);
        }
        self.make(text, kind)?;
        Ok((place, kind))
    }
}
