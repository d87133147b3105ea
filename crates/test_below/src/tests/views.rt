//! What is copied out of a view.
use rart_below::{KeyTrait, LendingKeyView, VectorKey};
use std::alloc::{AllocError, Global};
use std::process::Abort;
use std::test::Fail;

fn assert_copied(
    rt: &impl Abort,
    alloc: Global,
    view: &LendingKeyView<'_, '_>,
    wanted: &[u8],
) -> Result<(), AllocError> {
    assert_eq!(rt; view.to_vec(alloc)?.as_slice(), wanted);
    let key: VectorKey = view.to_key(alloc)?;
    assert_eq!(rt; key.as_ref(), wanted);
    let mut copy = Vec::new(alloc);
    view.write_into(&mut copy)?;
    assert_eq!(rt; copy.as_slice(), wanted);
    Ok(())
}

#[test]
fn views_are_copied(rt: HostRuntime) -> Result<(), Fail> {
    let segments = [b"ob".as_slice(), b"".as_slice(), b"ject".as_slice()];
    assert_copied(
        &rt,
        rt.alloc(),
        &LendingKeyView::new(&segments, 6),
        b"object",
    )?;
    Ok(())
}

// 40 bytes `x` and 30 bytes `y`: more than are gathered without a request.
#[test]
fn long_views_are_copied(rt: HostRuntime) -> Result<(), Fail> {
    let segments = [[b'x'; 40].as_slice(), [b'y'; 30].as_slice()];
    let view = LendingKeyView::new(&segments, 70);
    let wanted = b"xxxxxxxxxxxxxxxxxxxxxxxxxxxxxxxxxxxxxxxxyyyyyyyyyyyyyyyyyyyyyyyyyyyyyy";
    assert_copied(&rt, rt.alloc(), &view, wanted)?;
    Ok(())
}
