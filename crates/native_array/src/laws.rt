// Laws over the definitions. A function here does nothing: its contract is the law.
ghost use Rattle.native_array.specs.Laws.{ZeroWordsAreZeros, OwnWordsDecide};

/// Words of 0 stand for an array of zeros, and a word of 0 for a reference that has 0.
pub fn zero_words_are_zeros()
    ensures { ZeroWordsAreZeros }
{}

/// Where cells agree on the words of a container, they stand for the same contents of it.
pub fn own_words_decide()
    ensures { OwnWordsDecide }
{}
