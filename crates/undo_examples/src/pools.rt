//! Pools by examples.
use std::alloc::{AllocError, Global};
use undo_pool::{Full, Pool};

/// What goes wrong in these examples.
#[derive(Clone, Copy, PartialEq, Eq)]
enum Wrong {
    Memory,
    Full(Full),
}

impl From<AllocError> for Wrong {
    fn from(_error: AllocError) -> Wrong {
        Wrong::Memory
    }
}

impl From<Full> for Wrong {
    fn from(full: Full) -> Wrong {
        Wrong::Full(full)
    }
}

/// So many bytes, which count up from a first one.
fn counting(alloc: Global, first: u8, count: usize) -> Result<Vec<u8>, AllocError> {
    let mut bytes = Vec::with_capacity(alloc, count)?;
    let mut byte = first;
    for _ in 0..count {
        bytes.push(byte)?;
        byte = byte.wrapping_add(1);
    }
    Ok(bytes)
}

/// Adds so many bytes, which count up from a first one, to what an owner has.
fn add(alloc: Global, pool: &mut Pool, owner: u32, first: u8, count: usize) -> Result<(), Wrong> {
    let bytes = counting(alloc, first, count)?;
    pool.put(owner, &bytes)?;
    Ok(())
}

/// The free extents of a pool of two after each of five calls, where a refused one answers what it lacks.
fn free_extents(alloc: Global) -> Result<[u32; 4], Wrong> {
    let mut pool = Pool::new(alloc, 2)?;
    let at_first = pool.free();
    add(alloc, &mut pool, 1, 0, 4096)?;
    let after_one = pool.free();
    add(alloc, &mut pool, 1, 0, 1)?;
    let after_two = pool.free();
    if add(alloc, &mut pool, 2, 0, 1) != Err(Wrong::Full(Full { need: 1, free: 0 })) {
        return Ok([at_first, after_one, after_two, 9]);
    }
    pool.release(1);
    Ok([at_first, after_one, after_two, pool.free()])
}

#[test]
fn extents_are_taken_and_come_back(rt: HostRuntime) {
    assert!(rt; free_extents(rt.alloc()) == Ok([2, 1, 0, 2]));
}

/// The refusal of 5 MB in a pool of the most extents, of which one is taken.
fn refusal_of_much(alloc: Global) -> Result<(), Wrong> {
    let mut pool = Pool::new(alloc, 1024)?;
    add(alloc, &mut pool, 7, 0, 1)?;
    let much = vec![in alloc; 0; 5_000_000]?;
    pool.put(8, &much)?;
    Ok(())
}

#[test]
fn what_needs_more_than_is_free_is_refused(rt: HostRuntime) {
    let refusal = Full {
        need: 1221,
        free: 1023,
    };
    assert!(rt; refusal_of_much(rt.alloc()) == Err(Wrong::Full(refusal)));
}

/// The three bytes of an owner from a place on, where it has so many.
fn three(pool: &Pool, owner: u32, at: u32) -> [u8; 3] {
    let mut out = [0; 3];
    if u64::from(at) + 3 <= u64::from(pool.held(owner)) {
        pool.back(owner, at, &mut out);
    }
    out
}

/// Two owners by turns, and the bytes of the first over the edge of an extent.
fn bytes_over_an_edge(alloc: Global) -> Result<[u8; 3], Wrong> {
    let mut pool = Pool::new(alloc, 4)?;
    add(alloc, &mut pool, 1, 0, 4000)?;
    add(alloc, &mut pool, 2, 9, 4096)?;
    add(alloc, &mut pool, 1, 160, 200)?;
    Ok(three(&pool, 1, 4094))
}

#[test]
fn bytes_come_back_over_the_edge_of_an_extent(rt: HostRuntime) {
    assert!(rt; bytes_over_an_edge(rt.alloc()) == Ok([254, 255, 0]));
}

/// The free extents once an owner of two is cut to so many bytes.
fn free_after_a_cut(alloc: Global, keep: u32) -> Result<u32, Wrong> {
    let mut pool = Pool::new(alloc, 3)?;
    add(alloc, &mut pool, 5, 0, 4100)?;
    if keep <= pool.held(5) {
        pool.cut(5, keep);
    }
    Ok(pool.free())
}

#[test]
fn a_cut_at_the_edge_of_an_extent_lets_it_go(rt: HostRuntime) {
    assert!(rt; free_after_a_cut(rt.alloc(), 4097) == Ok(1));
    assert!(rt; free_after_a_cut(rt.alloc(), 4096) == Ok(2));
    assert!(rt; free_after_a_cut(rt.alloc(), 1) == Ok(2));
    assert!(rt; free_after_a_cut(rt.alloc(), 0) == Ok(3));
}

/// The free extents of a pool of the most, with one byte of as many owners but one.
fn free_with_many_owners(alloc: Global) -> Result<u32, Wrong> {
    let mut pool = Pool::new(alloc, 1024)?;
    for owner in 0..1023 {
        add(alloc, &mut pool, owner, 0, 1)?;
    }
    Ok(pool.free())
}

#[test]
fn each_owner_has_an_extent_of_its_own(rt: HostRuntime) {
    assert!(rt; free_with_many_owners(rt.alloc()) == Ok(1));
}
