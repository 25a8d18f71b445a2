use crate::packs::{CASES, packs_so};
use crate::shared::read_twice;
use parcel::{Leaf, Parcel};

#[test]
fn graphs_are_packed(rt: HostRuntime) {
    for case in CASES {
        assert!(rt; packs_so(rt.alloc(), *case));
    }
}

#[test]
fn threads_read_one_parcel(rt: HostRuntime) {
    let parcel = Parcel::of_leaf(rt.alloc(), Leaf::Int(7)).expect(&rt, "there is memory");
    let read = read_twice(&rt, rt.alloc(), parcel).expect(&rt, "there is memory");
    assert!(rt; read == ((0, 1), (0, 1)));
}
