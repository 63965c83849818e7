//! The room that a counter takes.
use i_tree::steps::Steps;
use std::marker::Brand;

#[test]
fn steps_take_no_bytes(rt: HostRuntime) {
    assert_eq!(rt; size_of::<Steps<Brand>>(), 0);
}
