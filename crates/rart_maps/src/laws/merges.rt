//! Where two sides that began with one map are in conflict, and what a merge of them is. Where a
//! law needs it, `==` of values is asked to be symmetric, or equality.
ghost use Rattle.rart_maps.specs.MergeLaws.{ConflictsAscend, ConflictsAreFound};
ghost use Rattle.rart_maps.specs.MergeLaws.{MergesAreByKey, SidesAgree};
ghost use Rattle.rart_maps.specs.MergeLaws.{ConflictsExchange, MergesExchange, BaseGivesWay};
ghost use Rattle.rart_maps.specs.MergeLaws.{PatchesAreMerges};

/// The conflicts ascend strictly by key, and stand exactly where both sides changed a key, and not
/// to the same.
pub fn conflicts_are_found<V: Eq>()
    ensures ascend { ConflictsAscend V.eq }
    ensures found { ConflictsAreFound V.eq }
{}

/// A merge has at a key the answer where there is a conflict, else what the side that changed it
/// has there, and else what the base has: by what `==` of values tells apart. Where both sides
/// changed a key to equal values it has theirs, and where neither did it has ours. Without a
/// conflict the merge is the same from both sides, where values that `==` calls equal are one.
pub fn merges_are_by_key<V: Eq>()
    ensures by_key { MergesAreByKey V.eq }
    ensures agree { SidesAgree V.eq }
{}

/// Both sides see the same conflicts, and get the same merge where they answer them alike. Where
/// one side changed nothing the merge is the other side. All this where `==` tells all values
/// apart. Where one side stands, the merge is the other with its changes.
pub fn merges_exchange<V: Eq>()
    ensures conflicts { ConflictsExchange V.eq }
    ensures merges { MergesExchange V.eq }
    ensures base { BaseGivesWay V.eq }
    ensures stands { PatchesAreMerges V.eq }
{}
