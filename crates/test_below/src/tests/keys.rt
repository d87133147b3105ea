//! The calls that make a key or a prefix, for any type of them.
use rart_below::{KeyTrait, Partial, is_admitted};
use std::alloc::{AllocError, Global};
use std::process::Abort;

/// A key of `wxyz`, its prefix of all bytes, and the key made of that.
pub fn assert_keys<K: KeyTrait>(rt: &impl Abort, alloc: Global) -> Result<(), AllocError> {
    assert!(rt; is_admitted(K::MAXIMUM_SIZE, 4));
    let key = K::new_from_slice(alloc, b"wxyz")?;
    let prefix = key.to_partial(alloc, 0)?;
    let again = K::new_from_partial(alloc, &prefix)?;
    assert_eq!(rt; key.as_ref(), b"wxyz".as_slice());
    assert_eq!(rt; again.as_ref(), b"wxyz".as_slice());
    Ok(())
}

/// The prefix `wxyz` parted, joined again and copied.
pub fn assert_prefixes<P: Partial>(rt: &impl Abort, alloc: Global) -> Result<(), AllocError> {
    assert!(rt; is_admitted(P::MAXIMUM_SIZE, 4));
    let whole = P::new_from_slice(alloc, b"wxyz")?;
    let first = whole.partial_before(alloc, 1)?;
    let rest = whole.partial_after(alloc, 1)?;
    let joined = first.partial_extended_with(alloc, &rest)?;
    let copy = joined.copy(alloc)?;
    assert_eq!(rt; first.as_ref(), b"w".as_slice());
    assert_eq!(rt; rest.as_ref(), b"xyz".as_slice());
    assert_eq!(rt; copy.as_ref(), b"wxyz".as_slice());
    Ok(())
}
