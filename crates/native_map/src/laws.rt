// Laws over the definitions. A function here does nothing: its contract is the law.
ghost use Rattle.native_map.specs.Laws.{ZeroWordsAreEmpty};

/// Words of 0 stand for the empty map.
pub fn zero_words_are_empty()
    ensures { ZeroWordsAreEmpty }
{}
