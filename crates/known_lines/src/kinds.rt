//! Where tokens of given kinds stand.

ghost use Rattle.std.specs.Prelude.{◌≡◌, ◌≤◌, ◌+◌, true, false, length, map};
ghost use Rattle.known_lines.specs.Lines.{AreAt};

use frame_grammar::{HasKind, TokenKind as K};

/// Whether the tokens from a place on are of these kinds.
#[inline(always)]
pub fn are_at<T: HasKind>(kinds: &[K], tokens: &[T], place: usize) -> bool
    requires { place ≤ length tokens.now }
    ensures there { result ≡ true → AreAt kinds.now (map T.kind_of tokens.now) place }
    ensures room { result ≡ true → place + length kinds.now ≤ length tokens.now }
    ensures absent { result ≡ false → AreAt kinds.now (map T.kind_of tokens.now) place → ⊥ }
{
    if tokens.len() - place < kinds.len() {
        return false;
    }
    // A list of the same length, so that its places need no test.
    let ahead = &tokens[place..place + kinds.len()];
    for (index, kind) in kinds.iter().enumerate() {
        if ahead[index].kind() != *kind {
            return false;
        }
    }
    true
}
