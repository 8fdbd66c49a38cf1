use crate::threads::{Sizes, are_in_order, run_threads};
use std::test::Fail;

/// The desks and their calls.
const SIZES: [(u32, u32); 3] = [(1, 100), (2, 50), (8, 1000)];

#[test]
fn each_thread_has_its_own_calls_in_order(rt: HostRuntime) -> Result<(), Fail> {
    for (desks, calls) in SIZES {
        let sizes = Sizes::new(desks, calls).expect(&rt, "lawful sizes");
        let entries = run_threads(&rt, rt.alloc(), sizes).expect(&rt, "memory");
        assert_eq!(rt; entries.len(), desks as usize * calls as usize);
        assert!(rt; are_in_order(entries.as_slice(), sizes));
    }
    Ok(())
}
