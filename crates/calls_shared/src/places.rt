//! A pass with room for the places of two entries.

use front_word::Front;
use std::test::*;

#[test]
fn a_pass_has_room_for_two_places(rt: HostRuntime) -> Result<(), Fail> {
    let Ok((f, mut w)) = Front::new(rt.alloc()) else {
        return Err(Fail::from("no memory"));
    };
    let Ok(mut pass) = w.split(rt.alloc(), &f) else {
        return Err(Fail::from("no memory"));
    };
    if pass.reserve_for(2).is_err() {
        return Err(Fail::from("no memory"));
    }
    w.publish(&f);
    pass.meet(&f, &mut w, Some(1));
    w.publish(&f);
    pass.meet(&f, &mut w, Some(2));
    assert_eq!(rt; pass.mine(), [1, 2].as_slice());
    Ok(())
}
