// Laws over the definitions. A function here does nothing: its contract is the law.
ghost use Rattle.native_stream.specs.Laws.{OwnWordsDecide, ZeroWordsAreUnwritten};

/// Words of 0 stand for a stream of which no index is written.
pub fn zero_words_are_unwritten()
    ensures { ZeroWordsAreUnwritten }
{}

/// Where cells agree on the words of a stream, they stand for the same contents of it, and for no others.
pub fn own_words_decide()
    ensures { OwnWordsDecide }
{}
