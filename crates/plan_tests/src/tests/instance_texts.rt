//! What is read of instance texts and no command shows: their descriptions. The other texts stand
//! in `tests/commands/command-lines`.

use super::plans::TWO;
use orlib_read::{Named, OrFault, read_from_collection, read_instance};
use shop_base::{Shop, Step};
use std::alloc::Global;
use std::test::Fail;

/// A text, its description, and the work of its shop.
type Described = (&'static [u8], &'static [u8], u64);

const DESCRIBED: &[Described] = &[
    (TWO, b"two", 10),
    (b"2 2\n0 3 1 2\n1 4 0 1\n", b"", 10),
    (b" two\t\n1 1\n0 5\n", b" two\t", 5),
    (b"instance a b\n1 1\n0 5\n", b"instance a b", 5),
    // Any bytes may stand in a description, and one carriage return is dropped at its end.
    (
        b"\xff\x00 +\r\x80\r\r\n1 1\n0 1\n",
        b"\xff\x00 +\r\x80\r",
        1,
    ),
];

/// Whether the instance has this description and work.
fn is_described(named: &Named, description: &[u8], work: u64) -> bool {
    named.description.as_slice() == description && named.shop.work() == work
}

#[test]
fn descriptions_are_read_as_they_stand(rt: HostRuntime) -> Result<(), Fail> {
    for &(text, description, work) in DESCRIBED {
        let named = read_instance(rt.alloc(), text)?;
        let is = is_described(&named, description, work);
        drop(named);
        assert!(rt; is);
    }
    Ok(())
}

const COLLECTION: &[u8] =
    b" intro text\n\n +++\n\n instance two\n\n +++\n small\n 2 2\n 0 3 1 2\n 1 4 0 1\n +++\n\n instance one\n 1 1\n 0 7\n";

/// Whether job 1 goes this way, and is the last one.
fn goes(shop: &Shop, route: &[Step]) -> bool {
    shop.route(1) == Some(route) && shop.route(2).is_none()
}

/// The way of job 1 of the two jobs.
const LAST: &[Step] = &[
    Step {
        machine: 1,
        nominal: 4,
    },
    Step {
        machine: 0,
        nominal: 1,
    },
];

/// Whether the instance of this name has this description and work.
fn is_found(alloc: Global, name: &[u8], description: &[u8], work: u64) -> Result<bool, OrFault> {
    let named = read_from_collection(alloc, COLLECTION, name)?;
    let is = is_described(&named, description, work);
    drop(named);
    Ok(is)
}

#[test]
fn instances_of_a_collection_are_found_by_name(rt: HostRuntime) -> Result<(), Fail> {
    let two = is_found(rt.alloc(), b"two", b" small", 10)?;
    let one = is_found(rt.alloc(), b"one", b"", 7)?;
    let named = read_from_collection(rt.alloc(), COLLECTION, b"two")?;
    let route = goes(&named.shop, LAST);
    drop(named);
    assert!(rt; (two, one, route) == (true, true, true));
    Ok(())
}

#[test]
fn out_of_memory_has_a_text(rt: HostRuntime) -> Result<(), Fail> {
    assert!(rt; OrFault::Memory.to_string(rt.alloc())?.as_str() == "Memory");
    Ok(())
}
