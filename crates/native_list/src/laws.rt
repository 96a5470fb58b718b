// Laws over the definitions. A function here does nothing: its contract is the law.
ghost use Rattle.native_list.specs.Laws.{ZeroWordsAreEmpty, OwnWordsDecide};

/// Words of 0 stand for the empty list.
pub fn zero_words_are_empty()
    ensures { ZeroWordsAreEmpty }
{}

/// Where cells agree on the words of a list, they stand for the same contents of it, and for no others.
pub fn own_words_decide()
    ensures { OwnWordsDecide }
{}
