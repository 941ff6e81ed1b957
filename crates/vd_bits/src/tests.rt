//! A small bitmap, and the bitmap and the set of the largest disk.

ghost use Rattle.std.specs.Prelude.{◌<◌};

use crate::bits::Bits;
use crate::marked::Marked;
use std::alloc::Global;
use std::process::Abort;
use std::test::Fail;

fn may_change_threads<T: Send>(_value: &T) {}

#[test]
fn ten_blocks_in_chunks_of_four(rt: HostRuntime) -> Result<(), Fail> {
    let mut bits = Bits::new(rt.alloc(), 10, 4)?;
    bits.set(1);
    bits.set(3);
    bits.set(8);
    assert_eq!(rt;
        (bits.mask(0), bits.mask(1), bits.mask(2)),
        (0b1010, 0, 0b01)
    );
    bits.put_mask(1, 0b1001);
    bits.clear(3);
    assert_eq!(rt;
        (bits.mask(0), bits.mask(1), bits.mask(2)),
        (0b0010, 0b1001, 0b01)
    );
    assert_eq!(rt;
        (bits.get(4), bits.get(5), bits.get(7), bits.count()),
        (true, false, true, 4)
    );
    let mut other = Bits::new(rt.alloc(), 10, 4)?;
    other.copy_from(&bits);
    assert_eq!(rt; (other.mask(1), other.count()), (0b1001, 4));
    Ok(())
}

fn last_block(rt: &impl Abort, alloc: Global, blocks: u32) -> Result<(), Fail>
    requires { 1 < blocks }
{
    let mut bits = Bits::new(alloc, blocks, 1)?;
    may_change_threads(&bits);
    bits.set(blocks - 1);
    assert_eq!(rt; (bits.mask(blocks - 2), bits.mask(blocks - 1)), (0, 1));
    Ok(())
}

fn last_number(rt: &impl Abort, alloc: Global, count: u64) -> Result<(), Fail>
    requires { 4_096 < count }
{
    let mut marked = Marked::new(alloc, count)?;
    may_change_threads(&marked);
    assert_eq!(rt; marked.first(), None);
    marked.mark(count - 1);
    marked.mark(4_096);
    marked.mark(4_096);
    assert_eq!(rt;
        (marked.first(), marked.first_from(4_097), marked.count()),
        (Some(4_096), Some(count - 1), 2)
    );
    marked.unmark(4_096);
    assert_eq!(rt; (marked.first(), marked.count()), (Some(count - 1), 1));
    marked.mark_all();
    marked.unmark(0);
    assert_eq!(rt; (marked.first(), marked.count()), (Some(1), count - 1));
    Ok(())
}

#[test]
fn largest_disk(rt: HostRuntime) -> Result<(), Fail> {
    last_block(&rt, rt.alloc(), 8_388_608)?;
    last_number(&rt, rt.alloc(), 8_388_608)
}
