//! Images that open: each row is an image with some bytes changed, and what its state says.

use crate::images::{Change, OLD};
use crate::states::{NEW, Says, opened};
use std::test::Fail;

const IMAGES: [(&'static [Change<'static>], Says); 6] = [
    (&[], NEW),
    // A record alone in slot 1: it counts, and the cursor stands behind it.
    (
        &[Change::Record(1, 1, &[[1, 1, 1]])],
        Says {
            storage: [None, Some(0), None, None],
            masks: [0, 1, 0, 0],
            more: Some(0),
            next: 2,
        },
    ),
    // A fact over an entry; the record of a later generation is passed over.
    (
        &[
            Change::Entry(0, [1, 0, 1]),
            Change::Record(0, 1, &[[0, 1, 3], [2, 3, 8]]),
            Change::Record(3, 2, &[[0, 1, 15]]),
        ],
        Says {
            storage: [Some(0), None, Some(2), None],
            masks: [3, 0, 8, 0],
            more: Some(0),
            next: 1,
        },
    ),
    // Two chunks have one storage in the map, and no more once the fact is applied.
    (
        &[
            Change::Entry(0, [1, 0, 1]),
            Change::Entry(1, [1, 0, 1]),
            Change::Record(0, 1, &[[1, 2, 1]]),
        ],
        Says {
            storage: [Some(0), Some(1), None, None],
            masks: [1, 1, 0, 0],
            more: Some(0),
            next: 1,
        },
    ),
    // The last fact of a chunk decides, and leads back to the map's entry.
    (
        &[
            Change::Entry(0, [1, 0, 1]),
            Change::Record(0, 1, &[[0, 2, 3]]),
            Change::Record(2, 1, &[[0, 1, 1]]),
        ],
        Says {
            storage: [Some(0), None, None, None],
            masks: [1, 0, 0, 0],
            more: None,
            next: 3,
        },
    ),
    // Version 1, as it was made.
    (&[OLD], NEW),
];

#[test]
fn images(rt: HostRuntime) -> Result<(), Fail> {
    for (changes, says) in &IMAGES {
        assert!(rt; opened(rt.alloc(), 104, 1, 0, changes)? == Ok(*says));
    }
    Ok(())
}
