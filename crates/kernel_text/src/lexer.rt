//! Finds the tokens of a file, up to the first byte that begins none.

ghost use Rattle.std.specs.Prelude.{◌≡◌, ◌<◌, ◌≤◌, ◌+◌, ◌^◌, ◌++◌, ◌∷◌, [], ℕ, List, All, length, IfOk};
ghost use Rattle.std.specs.List.{starts_with};
ghost use Rattle.job_base.specs.declared.limits.TheConstants.{MOST_SCRIPT_BYTES};
ghost use Rattle.kernel_text.specs.Tokens.{tokens_of, up_to_bad, is_bad, end_at, mark_len, NamesAreText};
ghost use Rattle.kernel_text.specs.Marks.{IsOfKind, tokens_in, lines_in};

use crate::mark::Mark;
use crate::word::{begun_at, front_at, is_blank};
use frame_grammar::TokenKind;
use job_base::NoMemory;
use std::alloc::Global;

/// What some editors write at the head of a file; it is no part of the text.
const BYTE_ORDER_MARK: [u8; 3] = [0xEF, 0xBB, 0xBF];

fn mark_len(source: &[u8]) -> usize
    ensures { result ≡ mark_len source.now }
{
    if source.starts_with(&BYTE_ORDER_MARK) {
        3
    } else {
        0
    }
}

/// Whether a token of this kind is a byte that begins none.
fn is_bad(kind: TokenKind) -> bool
    ensures { result ≡ is_bad kind }
{
    matches!(kind, TokenKind::Bad)
}

/// Adds the `End` after the last token.
fn push_end(marks: &mut Vec<Mark>, place: usize) -> Result<(), NoMemory>
    requires { place < 2 ^ 25 }
    ensures tokens { (source : List ℕ) → IfOk result (λ _. tokens_in source 1 marks.new.items
        ≡ tokens_in source 1 marks.old.items ++ end_at place (1 + lines_in marks.old.items) ∷ []) }
    ensures exact { IfOk result (λ _. All IsOfKind marks.old.items → All IsOfKind marks.new.items) }
{
    marks.push(Mark::of(TokenKind::End, place as u32))?;
    Ok(())
}

/// The tokens of a file, from its first byte to the `End` after its last one.
///
/// Names, numbers, texts, symbols and reserved words are found from left to right, the longest
/// first. Spaces, tabs, carriage returns and comments separate them; a comment is `#` and what
/// follows it in its line. A byte that begins no token is a `Bad` token, so lexing itself finds no
/// fault.
///
/// Nothing is read after a `Bad` token, and the `End` stands right after it: no file and no kernel
/// goes on with it, and a file of such bytes alone would be as many tokens.
// In line it would share its caller's registers, of which its loop wants all.
#[inline(never)]
pub fn lex(alloc: Global, source: &[u8]) -> Result<Vec<Mark>, NoMemory>
    requires { length source.now ≤ MOST_SCRIPT_BYTES }
    ensures tokens { IfOk result (λ marks. tokens_in source.now 1 marks.items ≡ up_to_bad (tokens_of source.now)) }
    ensures text { IfOk result (λ marks. NamesAreText source.now (tokens_in source.now 1 marks.items)) }
    ensures exact { IfOk result (λ marks. All IsOfKind marks.items) }
{
    let mut marks = Vec::new(alloc);
    let mut place = mark_len(source);
    while place < source.len() {
        if is_blank(source[place]) {
            place += 1;
            continue;
        }
        // Most tokens are told by their first byte, and none of those is `Bad`.
        if let Some(token) = begun_at(source, place) {
            marks.push(Mark::of(token.kind, place as u32))?;
            place = token.end;
            continue;
        }
        let word = front_at(source, place);
        if let Some(kind) = word.kind {
            marks.push(Mark::of(kind, place as u32))?;
            if is_bad(kind) {
                push_end(&mut marks, word.end)?;
                return Ok(marks);
            }
        }
        place = word.end;
    }
    push_end(&mut marks, place)?;
    Ok(marks)
}
