use cut_pool::CutPool;
use slot_box::{CutParams, NamedCut};
use std::test::Fail;

#[test]
fn a_cut_stays_where_it_was_pushed(rt: HostRuntime) -> Result<(), Fail> {
    let params = CutParams {
        places: 2,
        p: 1,
        q: 10,
        weights: [0, 1, 0, 0, 0, 0, 0, 0, 0, 0, 0, 0],
    };
    let cut = NamedCut { cut: 257, params };
    let pool = CutPool::new(rt.alloc())?;
    let token = pool.push(&rt, cut)?;
    assert_eq!(rt; *pool.at(&token), cut);
    let seen = pool.visit(token.index()).ok_or("a cut is there")?;
    pool.agrees(&token, &seen);
    assert_eq!(rt; *pool.at(&seen), cut);
    assert!(rt; pool.visit(token.index().wrapping_add(1)).is_none());
    Ok(())
}
