//! Files of the system.

use be_io::{FileShelf, Shelf, ShelfFault};

#[test]
fn no_file_of_the_system(rt: HostRuntime) {
    let alloc = rt.alloc();
    let mut shelf = FileShelf::make(&rt, alloc);
    let none = shelf.read_file(alloc, "no-such-file").err();
    let folder = shelf.read_file(alloc, "/").err();
    assert!(rt; none == Some(ShelfFault::Failed) && folder == Some(ShelfFault::Failed));
}
