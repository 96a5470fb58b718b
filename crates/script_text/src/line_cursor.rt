//! The lines of a file's tokens, where they are asked for one after another.

ghost use Rattle.std.specs.Prelude.{◌≡◌, ◌-◌, ◌<◌, ◌≤◌, ◌^◌, length};
ghost use Rattle.script_text.specs.Sources.{line_at};
ghost use Rattle.script_text.specs.declared.source.Source.{Source};

use crate::Source;
use frame_grammar::TokenAt;
use kernel_text::lines_in;

/// A place among the tokens of a file, and the line there.
///
/// A token has no line in memory: the ends of lines before it are counted. A walk over a file asks for
/// the lines of its statements one after another. Counted from the first token on for each, they would
/// take the square of the file's length; from the last one on they take its length.
#[derive(Clone, Copy, Debug)]
pub struct LineCursor {
    /// The place of a token, or the one after the last.
    pub place: usize,
    /// The line there, counted from 1.
    pub line: u32,
}

impl LineCursor {
    ghost use Rattle.script_text.specs.Lines.{IsOn};

    /// At the first token.
    pub fn new() -> Self
        ensures first { result.place ≡ 0 }
        ensures on { (source : Source) → IsOn source result }
    {
        LineCursor { place: 0, line: 1 }
    }

    // Where the way to a place begins: here, or at the first token where the place is before this one.
    fn start(self, at: usize) -> Self
        ensures on { (source : Source) → IsOn source self → IsOn source result }
        ensures before { result.place ≤ at }
    {
        if at < self.place {
            LineCursor::new()
        } else {
            self
        }
    }

    /// Goes to the token at a place. Answers its line, counted from 1; 0 where no token stands there.
    pub fn go_to(&mut self, source: Source<'_>, at: TokenAt) -> u32
        requires few { length source.marks.now < 2 ^ 32 - 1 }
        requires on { IsOn source self.old }
        ensures line { result ≡ line_at source.entry at }
        ensures on { IsOn source.entry self.new }
    {
        let place = at.index();
        if place >= source.marks.len() {
            return 0;
        }
        let start = self.start(place);
        let between = &source.marks[start.place..place];
        let line = start.line + lines_in(between);
        *self = LineCursor { place, line };
        line
    }
}
