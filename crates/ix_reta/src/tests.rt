// What no clause says: a table that is turned, and that memory is enough.

use crate::Reta;
use ix_base::{CoreId, GroupId};
use std::test::Fail;

#[test]
fn turns(rt: HostRuntime) -> Result<(), Fail> {
    let mut table = Reta::new(rt.alloc(), 3, 2)?;
    for (group, core) in [(0u16, 0u8), (4, 1), (127, 1), (128, 0), (511, 1)] {
        assert_eq!(rt; table.core(GroupId(group)), CoreId(core));
        assert_eq!(rt; table.tenure(GroupId(group)), 0);
    }
    table.turn(GroupId(128), CoreId(7));
    table.turn(GroupId(128), CoreId(2));
    assert_eq!(rt;
        (table.core(GroupId(128)), table.tenure(GroupId(128))),
        (CoreId(2), 2)
    );
    assert_eq!(rt;
        (table.core(GroupId(0)), table.tenure(GroupId(0))),
        (CoreId(0), 0)
    );
    let wanted = [(GroupId(128), CoreId(7)), (GroupId(128), CoreId(2))];
    assert!(rt; table.log().as_slice() == wanted.as_slice());
    assert_eq!(rt; (table.log().len(), table.log().room()), (2, 0));
    Ok(())
}
