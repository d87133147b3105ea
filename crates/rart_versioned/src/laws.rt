//! What the words on many changes at once mean: laws, each the contract of a function that does
//! nothing. rart has none.
ghost use Rattle.rart_maps.specs.Visits.{BySlice};
ghost use Rattle.rart_versioned.specs.ExtendLaws.{LastPairStays, ListedPairsArePutIn, OtherKeysStay, PairsAreInsertions, PairsGoPartByPart, WorkedExtension};
ghost use Rattle.rart_versioned.specs.Replies.{AnswerableStepByStep, AsksFirstMembers};
ghost use Rattle.rart_versioned.specs.RetainLaws.{AsksInOrder, PairsAreFiltered, WorkedReplies};

pub mod counting;
pub mod cursors;

use rart_below::KeyTrait;

/// With many pairs put in, a key has the value of its last pair, and what it had where no pair has
/// it; that fixes the map. The number is that of as many single insertions.
pub fn extensions_set_each_key<V>()
    ensures last { LastPairStays V }
    ensures others { OtherKeysStay V }
    ensures single { PairsAreInsertions V }
    ensures parts { PairsGoPartByPart V }
{}

/// What an iterator's pairs are, where each of its runs gives the same: these are put in.
pub fn listed_pairs_are_put_in<K: KeyTrait, V, I: IntoIterator<Item = (K, V)>>()
    ensures { ListedPairsArePutIn K.bytes I.into_iter_gives I.IntoIter.next_gives }
{}

/// A worked value: three pairs, two of them of a key.
pub fn worked_extension()
    ensures { WorkedExtension }
{}

/// Where the closure of `retain` answers as a function of the pair does, what is left are the pairs
/// filtered by that function, and the number is one greater for each of the others.
pub fn retained_pairs_are_filtered<V, F: FnMut(&[u8], &V) -> bool>()
    ensures { PairsAreFiltered F.FnMut BySlice }
{}

/// The closure is asked about each pair once, in order; refused, about the first ones. It must take
/// the first pair, and then, whatever it leaves, the others.
pub fn retain_asks_in_order<V, F: FnMut(&[u8], &V) -> bool>()
    ensures asked { AsksInOrder F.FnMut BySlice }
    ensures refused { AsksFirstMembers F.FnMut BySlice }
    ensures answerable { AnswerableStepByStep F.FnMut BySlice }
{}

/// A worked value: three replies, one of them `false`.
pub fn worked_replies()
    ensures { WorkedReplies }
{}
