//! Four passes and their blocks.

use crate::regions::{Busy, Mode, Regions};
use std::test::Fail;

#[test]
fn four_passes(rt: HostRuntime) -> Result<(), Fail> {
    let mut regions = Regions::new(rt.alloc(), 4)?;
    assert_eq!(rt; regions.ask(1, 3, 5, Mode::Shared), Ok(()));
    assert_eq!(rt; regions.ask(2, 3, 5, Mode::Shared), Ok(()));
    assert_eq!(rt; regions.ask(3, 5, 6, Mode::Own), Err(Busy { by: 1 }));
    assert_eq!(rt; regions.ask(3, 6, 6, Mode::Own), Ok(()));
    assert_eq!(rt; regions.ask(0, 6, 7, Mode::Shared), Err(Busy { by: 3 }));
    regions.free(3);
    assert_eq!(rt; regions.ask(0, 6, 7, Mode::Shared), Ok(()));
    Ok(())
}
