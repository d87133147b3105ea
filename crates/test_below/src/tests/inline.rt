//! Keys and prefixes held inline.
use crate::tests::keys::{assert_keys, assert_prefixes};
use rart_below::{ArrPartial, ArrayKey, KeyTrait, LendingKeyView};
use std::test::Fail;

#[test]
fn inline_keys_and_prefixes_are_made(rt: HostRuntime) -> Result<(), Fail> {
    assert_keys::<ArrayKey<4>>(&rt, rt.alloc())?;
    assert_prefixes::<ArrPartial<4>>(&rt, rt.alloc())?;
    Ok(())
}

#[test]
fn inline_key_is_made_of_a_view(rt: HostRuntime) -> Result<(), Fail> {
    let segments = [b"ob".as_slice(), b"ject".as_slice()];
    let view = LendingKeyView::new(&segments, 6);
    let key: ArrayKey<16> = view.to_key(rt.alloc())?;
    assert_eq!(rt; key.as_ref(), b"object".as_slice());
    Ok(())
}
