//! The texts of errors.
use rart_below::Refusal;
use rart_node::GrowError;
use std::alloc::AllocError;
use std::test::Fail;

#[test]
fn refusal_says_what_failed(rt: HostRuntime) -> Result<(), Fail> {
    let callback = format!(in rt.alloc(); "{}", Refusal::Callback("no seat"))?;
    assert_eq!(rt; callback.as_str(), "the callback failed: no seat");
    let memory: Refusal<u64> = Refusal::Memory(AllocError);
    let memory = format!(in rt.alloc(); "{memory}")?;
    assert_eq!(rt; memory.as_str(), "memory allocation failed");
    Ok(())
}

#[test]
fn error_says_why_a_node_does_not_grow(rt: HostRuntime) -> Result<(), Fail> {
    for (error, wanted) in [
        (GrowError::Leaf, "a leaf is not widened"),
        (GrowError::Widest, "the node has the greatest width, 256"),
        (GrowError::Memory(AllocError), "memory allocation failed"),
    ] {
        let text = format!(in rt.alloc(); "{error}")?;
        assert_eq!(rt; text.as_str(), wanted);
    }
    Ok(())
}
