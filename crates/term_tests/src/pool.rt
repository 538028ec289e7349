//! A pool, filled and cut.

use std::alloc::AllocError;
use term_pool::Pool;

#[test]
fn a_pool_is_its_list(rt: HostRuntime) -> Result<(), AllocError> {
    let mut pool = Pool::new(rt.alloc());
    pool.reserve(3)?;
    let first = pool.push(10u32);
    let mark = pool.mark();
    let second = pool.push(20);
    let third = pool.push(30);
    let three = pool.len();
    pool.release(mark);
    let one = pool.len();
    let next = pool.push(40);
    let last = pool.push(50);
    assert!(rt; first == 0 && second == 1 && third == 2 && three == 3 && one == 1);
    assert!(rt;
        next == 1 && last == 2 && *pool.get(0) == 10 && *pool.get(1) == 40 && *pool.get(2) == 50
    );
    Ok(())
}
