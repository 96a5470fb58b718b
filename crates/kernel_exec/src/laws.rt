//! Laws of what kernels mean for words, and of their footprints. Each function does nothing: its contract is the law,
//! as `specs/Laws` states it.
ghost use Rattle.kernel_exec.specs.Laws.{FootprintsGrow, IndexesAreCut, OnlyWrittenWordsChange, OwnPartsAreApart, ReadWordsDecide, WordsStandForContents, WrittenWordsAreRead};

/// A checked kernel, at an index and at indexes that follow one another, changes no word but those that they write by
/// their footprint.
pub fn only_written_words_change()
    ensures { OnlyWrittenWordsChange }
{}

/// From two memories that agree on the words that an index reads by its footprint a checked kernel meets the same trap,
/// or none, and the memories go on agreeing wherever they did; at indexes that follow one another likewise.
pub fn read_words_decide()
    ensures { ReadWordsDecide }
{}

/// A kernel does at indexes that follow one another what it does at the first ones and then at the others.
pub fn indexes_are_cut()
    ensures { IndexesAreCut }
{}

/// The words that a footprint reads contain those that it writes.
pub fn written_words_are_read()
    ensures { WrittenWordsAreRead }
{}

/// The footprint of some indexes contains that of each part of them.
pub fn footprints_grow()
    ensures { FootprintsGrow }
{}

/// Where of each bind that may be written an index owns a part, what some indexes write is not read by others.
pub fn own_parts_are_apart()
    ensures { OwnPartsAreApart }
{}

/// Where words stand for contents, a kernel does to the words what it does to the contents.
pub fn words_stand_for_contents()
    ensures { WordsStandForContents }
{}
