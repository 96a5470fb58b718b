//! The texts of a script's names.

ghost use Rattle.std.specs.Prelude.{◌≡◌, ◌<◌, ◌≤◌, ◌-◌, ◌++◌, ◌∷◌, [], length, take, drop, option_map, IfOk, IsUtf8, slice_get};
ghost use Rattle.frame_ast.specs.JoinedTexts.{start_at};

use std::alloc::{AllocError, Global};
use std::marker::Model;
use std::str;

/// Texts in an order. A contract sees the list of them, each as its bytes.
///
/// They stand one after another in one list of bytes, so a script's names take two allocations, however many they are.
#[derive(Drop)]
pub struct NameTexts {
    bytes: Vec<u8>,
    /// Where each text ends among the bytes. The next one begins there.
    ends: Vec<usize>,
}

impl Model for NameTexts {
    ghost use Rattle.std.specs.Prelude.{ℕ, List};
    ghost use Rattle.frame_ast.specs.JoinedTexts.{texts_from, StandIn};

    ghost Value = { List (List ℕ) };

    ghost view = { λ s. texts_from 0 s.bytes.items s.ends.items };

    ghost invariant = { λ s. StandIn 0 s.bytes.items s.ends.items };
}

// Where the text at a place begins, of texts that end there.
fn start_of(ends: &[usize], place: usize) -> usize
    requires { place < length ends.now }
    ensures { result ≡ start_at 0 ends.now place }
{
    if place == 0 { 0 } else { ends[place - 1] }
}

// The bytes from a place up to another one, which are a text. That they are is proved, so they aren't looked at once
// more.
fn text_between(bytes: &[u8], start: usize, end: usize) -> &str
    requires order { start ≤ end }
    requires within { end ≤ length bytes.now }
    requires text { IsUtf8 (take (end - start) (drop start bytes.now)) }
    ensures { result.now ≡ take (end - start) (drop start bytes.now) }
{
    unsafe { str::from_utf8_unchecked(&bytes[start..end]) }
}

impl NameTexts {
    /// No texts.
    pub fn new(alloc: Global) -> NameTexts
        ensures { result ≡ [] }
    {
        NameTexts {
            bytes: Vec::new(alloc),
            ends: Vec::new(alloc),
        }
    }

    /// How many they are.
    pub fn len(&self) -> usize
        ensures { result ≡ length self.now }
    {
        self.ends.len()
    }

    /// The text at a place, or none where there are fewer.
    pub fn get(&self, place: usize) -> Option<&str>
        ensures { option_map (λ text. text.now) result ≡ slice_get self.now place }
    {
        let ends = self.ends.as_slice();
        if place >= ends.len() {
            return None;
        }
        Some(text_between(&self.bytes, start_of(ends, place), ends[place]))
    }

    /// One more text, after the others.
    pub fn push(&mut self, text: &str) -> Result<(), AllocError>
        ensures { IfOk result (λ _. self.new ≡ self.old ++ text.now ∷ []) }
    {
        self.ends.reserve(1)?;
        self.bytes.extend_from_slice(text.as_bytes())?;
        self.ends.push_reserved(self.bytes.len());
        Ok(())
    }

    /// The same texts once more.
    pub fn try_clone(&self) -> Result<NameTexts, AllocError>
        ensures { IfOk result (λ texts. texts ≡ self.now) }
    {
        Ok(NameTexts {
            bytes: self.bytes.clone()?,
            ends: self.ends.clone()?,
        })
    }
}
