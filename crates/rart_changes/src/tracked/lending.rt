//! A value lent for writing: the key is touched, and the current version lends its value.
ghost use Rattle.std.specs.Prelude.{◌≡◌, ◌<◌, ◌≤◌, ◌*◌, Some, false, IfOk, IfErr, OnOk, OnErr, IsTrue};
ghost use Rattle.std.specs.Borrow.{sem};
ghost use Rattle.rart_below.specs.Clones.{ClonesEqual};
ghost use Rattle.rart_changes.specs.Asks.{CanMark};
ghost use Rattle.rart_changes.specs.Lending.{LendsOrStays, LendsTouched};
ghost use Rattle.rart_changes.specs.Tracking.{IsMarked};
ghost use Rattle.rart_maps.specs.Bounds.{change_bound, lookup_bound};
ghost use Rattle.rart_maps.specs.Versions.{HasRoom, has_key, has_no_key, value_at};
ghost use Rattle.rart_versioned.specs.Counts.{CountsUpTo};
ghost use Rattle.rart_versioned.specs.Missing.{Explains};

use crate::tracked::{TrackedTree, marked_key};
use rart_below::KeyTrait;
use rart_versioned::{Missing, VersionedAdaptiveRadixTree, Work};

impl<K: KeyTrait, V: Clone + Drop> TrackedTree<K, V> {
    /// As `value_mut`, with the nodes entered and made counted into `work`: at most five more
    /// entered than five times the bytes of the key, and at most four more made than twice these.
    /// One is entered at least where there is a key in the current version. Where this one is
    /// absent it is looked up alone, and none is made.
    pub fn value_mut_counted(&mut self, key: &K, work: &mut Work) -> Result<&mut V, Missing>
        requires clones { ClonesEqual V.is_clone }
        requires room { HasRoom self.old.current 1 }
        ensures* writes_back { sem 𝓛 (LendsTouched K.row V.row K.PartialType.row K.MAXIMUM_SIZE
            K.bytes K.eq K.cmp K.partial_cmp K.PartialType.Partial V.Clone self.entry
            (K.bytes key.now) result) }
        ensures value { IfOk result (λ value. value_at self.old.current (K.bytes key.now)
            ≡ Some value.now) }
        ensures missing { IfErr result
            (λ missing. Explains missing (value_at self.old.current (K.bytes key.now))) }
        ensures counted { CountsUpTo (5 * lookup_bound (K.bytes key.now))
            (2 * change_bound (K.bytes key.now)) work.old work.new }
        ensures absent { has_key self.old.current (K.bytes key.now) ≡ false
            → CountsUpTo (lookup_bound (K.bytes key.now)) 0 work.old work.new }
        ensures entered { has_no_key self.old.current ≡ false
            → work.old.entered < work.new.entered }
    {
        lend_in(&mut self.current, &mut self.touched, key, work)
    }
}

/// Lends the value of a key of this version, and puts the key among the touched ones. Refused for
/// memory, or where the key is absent, both are as before.
fn lend_in<'a, K: KeyTrait, V: Clone + Drop>(
    current: &'a mut VersionedAdaptiveRadixTree<K, V>,
    touched: &mut VersionedAdaptiveRadixTree<K, ()>,
    key: &K,
    work: &mut Work,
) -> Result<&'a mut V, Missing>
    requires clones { ClonesEqual V.is_clone }
    requires room { HasRoom current.old 1 }
    requires markable { CanMark touched.old }
    ensures* writes_back { sem 𝓛 (LendsOrStays K.row V.row K.PartialType.row K.MAXIMUM_SIZE
        K.bytes K.eq K.cmp K.partial_cmp K.PartialType.Partial V.Clone current.entry
        (K.bytes key.now) result) }
    ensures value { IfOk result (λ value. value_at current.old (K.bytes key.now)
        ≡ Some value.now) }
    ensures missing { IfErr result
        (λ missing. Explains missing (value_at current.old (K.bytes key.now))) }
    ensures marked { OnOk result (IsMarked touched.old (K.bytes key.now) touched.new) }
    ensures kept { OnErr result (touched.new ≡ touched.old) }
    ensures counted { CountsUpTo (5 * lookup_bound (K.bytes key.now))
        (2 * change_bound (K.bytes key.now)) work.old work.new }
    ensures absent { has_key current.old (K.bytes key.now) ≡ false
        → CountsUpTo (lookup_bound (K.bytes key.now)) 0 work.old work.new }
    ensures entered { has_no_key current.old ≡ false → work.old.entered < work.new.entered }
{
    match marked_there(current, touched, key, work) {
        Ok(marked) => match current.value_mut_counted(key, work) {
            Ok(value) => {
                *touched = marked;
                Ok(value)
            }
            Err(missing) => Err(missing),
        },
        Err(missing) => Err(missing),
    }
}

/// The touched keys and one more, that is there. Where it is absent no memory is asked for.
fn marked_there<K: KeyTrait, V: Clone + Drop>(
    current: &VersionedAdaptiveRadixTree<K, V>,
    touched: &VersionedAdaptiveRadixTree<K, ()>,
    key: &K,
    work: &mut Work,
) -> Result<VersionedAdaptiveRadixTree<K, ()>, Missing>
    requires { CanMark touched.now }
    ensures marked { IfOk result (IsMarked touched.now (K.bytes key.now)) }
    ensures there { OnOk result (IsTrue (has_key current.now (K.bytes key.now))) }
    ensures missing { IfErr result
        (λ missing. Explains missing (value_at current.now (K.bytes key.now))) }
    ensures counted { CountsUpTo (3 * lookup_bound (K.bytes key.now))
        (change_bound (K.bytes key.now)) work.old work.new }
    ensures absent { has_key current.now (K.bytes key.now) ≡ false
        → CountsUpTo (lookup_bound (K.bytes key.now)) 0 work.old work.new }
    ensures entered { has_no_key current.now ≡ false → work.old.entered < work.new.entered }
{
    if current.get_k_counted(key, work).is_none() {
        return Err(Missing::Absent);
    }
    match marked_key(touched, key, work) {
        Ok(marked) => Ok(marked),
        Err(refused) => Err(Missing::Memory(refused)),
    }
}
