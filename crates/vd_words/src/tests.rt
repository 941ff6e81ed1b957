//! Marks and draws, on one thread and on several.
ghost use Rattle.std.specs.Prelude.{◌≡◌, ◌<◌, false};
ghost use Rattle.vd_words.specs.Values.{IsScanOf};

use crate::{Marks, Pen, Scan};
use std::alloc::{AllocError, Global};
use std::sync::{Mutex, Wait};
use std::test::Fail;
use std::thread::{join, map_vec};

#[test]
fn a_marked_block_is_seen_and_no_other(rt: HostRuntime) -> Result<(), Fail> {
    let (marks, mut pen, mut scans) = Marks::new(rt.alloc(), 100, 3, 1)?;
    let Some(mut scan) = scans.pop() else {
        panic!(rt; "no scan")
    };
    pen.mark(70);
    pen.mark(0);
    assert!(rt; marks.seen(&mut scan, 70) && marks.seen(&mut scan, 0));
    assert!(rt;
        !marks.seen(&mut scan, 71) && !marks.seen(&mut scan, 6) && !marks.seen(&mut scan, 99)
    );
    Ok(())
}

#[test]
fn marks_of_the_largest_disk_are_made(rt: HostRuntime) -> Result<(), Fail> {
    let (marks, mut pen, mut scans) = Marks::new(rt.alloc(), 8_388_608, 8_388_608, 64)?;
    let Some(mut scan) = scans.pop() else {
        panic!(rt; "no scan")
    };
    pen.mark(8_388_607);
    assert!(rt; marks.seen(&mut scan, 8_388_607) && !marks.seen(&mut scan, 8_388_606));
    assert!(rt; marks.draw(&mut scan) == Some(0));
    Ok(())
}

#[test]
fn two_scans_share_the_numbers_and_close(rt: HostRuntime) -> Result<(), Fail> {
    let (marks, pen, mut scans) = Marks::new(rt.alloc(), 100, 2, 2)?;
    let (Some(mut second), Some(mut first)) = (scans.pop(), scans.pop()) else {
        panic!(rt; "no scans")
    };
    assert!(rt; marks.draw(&mut first) == Some(0) && !first.ended());
    assert!(rt; marks.draw(&mut second) == Some(1) && !second.ended());
    assert!(rt; marks.draw(&mut first).is_none() && first.ended());
    assert!(rt; marks.draw(&mut second).is_none() && second.ended());
    scans.push(first)?;
    scans.push(second)?;
    marks.close(pen, scans);
    Ok(())
}

// The numbers that the scan draws until none is left.
fn draw_all(alloc: Global, marks: &Marks, mut scan: Scan) -> Result<Vec<u32>, AllocError>
    requires own { IsScanOf marks.now scan }
    requires unended { scan.ended ≡ false }
{
    let mut numbers = Vec::new(alloc);
    for _ in 0..1000 {
        let Some(number) = marks.draw(&mut scan) else {
            break;
        };
        numbers.push(number)?;
    }
    Ok(numbers)
}

#[test]
fn eight_threads_draw_each_number_once(rt: HostRuntime) -> Result<(), Fail> {
    let (marks, _pen, scans) = Marks::new(rt.alloc(), 400, 300, 8)?;
    let (shared, alloc) = (&marks, rt.alloc());
    let lists = map_vec(&rt, scans, &|scan: Scan| draw_all(alloc, shared, scan))?;
    let mut times = [0u8; 400];
    for list in lists {
        for number in list?.iter() {
            if let Some(count) = times.get_mut(*number as usize) {
                *count = count.saturating_add(1);
            }
        }
    }
    for (number, count) in times.iter().enumerate() {
        assert_eq!(rt; *count, u8::from(number < 300), "number {number}");
    }
    Ok(())
}

// As a core does, it holds the pen and can mark every block.
#[derive(Drop)]
struct Holder<const BLOCKS: u32> {
    pen: Pen,
    ghost sized: { pen.blocks ≡ BLOCKS },
}

#[test]
fn a_pen_inside_another_value_marks_for_another_thread(rt: HostRuntime) -> Result<(), Fail> {
    let (marks, pen, mut scans) = Marks::new(rt.alloc(), 64, 1, 1)?;
    let Some(first) = scans.pop() else {
        panic!(rt; "no scan")
    };
    let holder = Mutex::new(Holder::<64> { pen });
    let (holder, marks) = (&holder, &marks);
    let ((), seen) = join(
        &rt,
        || holder.lock(&rt).pen.mark(63),
        || look_until_seen(&rt, marks, first),
    );
    assert!(rt; seen);
    Ok(())
}

// Looks at block 63 until it is marked.
fn look_until_seen<R: Wait>(rt: &R, marks: &Marks, mut scan: Scan) -> bool
    requires { IsScanOf marks.now scan × (63 < marks.now.blocks) }
{
    for _ in rt.forever() {
        if marks.seen(&mut scan, 63) {
            break;
        }
    }
    true
}
