//! A list in a front, and its copy.
use crate::Front;
use std::test::Fail;

#[test]
fn a_front_and_its_copy(rt: HostRuntime) -> Result<(), Fail> {
    let mut front: Front<u8, 4> = Front::of(&[1, 3], 0);
    front.insert(1, 2);
    front.append(&[4]);
    assert_eq!(rt; front.remove(0), 1);
    front.truncate(2);
    let copy = front.clone()?;
    assert_eq!(rt; copy.len(), 2);
    assert!(rt; copy.as_slice() == [2, 3].as_slice());
    Ok(())
}
