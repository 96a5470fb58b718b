//! The laws of the merge.

ghost use Rattle.merge_laws.specs.MergeLaws.{APieceMayBegin, BeginsKeepTheMerge, EndsKeepTheMerge, HandsKeepTheMerge, LeasesAreApart, StoresKeepTheMerge, WhatMayBeginIsClear};

/// Of two leased pieces none reads or writes what the other writes: there is no race.
pub fn leases_are_apart()
    ensures { LeasesAreApart }
{}

/// A piece that may begin shares no word with what runs that one of them writes, and finds its cells as script order
/// has them before it.
pub fn what_may_begin_is_clear()
    ensures { WhatMayBeginIsClear }
{}

/// The first law: the merge holds with a lease more.
pub fn begins_keep_the_merge()
    ensures { BeginsKeepTheMerge }
{}

/// The second law: where cells are used in place, the merge holds after a store.
pub fn stores_keep_the_merge()
    ensures { StoresKeepTheMerge }
{}

/// The third law: the merge holds with a piece more ended.
pub fn ends_keep_the_merge()
    ensures { EndsKeepTheMerge }
{}

/// A lease may be handed over to another key.
pub fn hands_keep_the_merge()
    ensures { HandsKeepTheMerge }
{}

/// Where nothing is leased, all pieces are ended or one may begin: a plan can't get stuck.
pub fn a_piece_may_begin()
    ensures { APieceMayBegin }
{}
