//! Each growth refused in turn: the answer is that memory ran out, or that of the undisturbed call, and all memory that
//! was taken is given back.

use crate::refusing::Refusing;
use crate::turns::{TURNS, Turn, run};
use bumpalo::Bump;
use linked_list_allocator::LocalHeap;
use std::alloc::{AllocError, Global};
use std::test::Fail;
use terms::NoMemory;
use tuple_codec::Bad;

// More than any turn takes, in bytes.
const AMPLE: usize = 8192;

// More growths than any turn has.
const MANY: u64 = 1000;

// The step in which a heap hands out its bytes.
const UNIT: usize = 16;

// An arena that has so many bytes left and gets no more.
fn meagre(alloc: Global, left: usize) -> Result<Bump, AllocError> {
    let bump = Bump::try_with_capacity(alloc, AMPLE)?;
    bump.set_allocation_limit(Some(0));
    let filled = bump.chunk_capacity().saturating_sub(left);
    let _filling = bump.try_alloc_slice_fill_clone(filled, 0u8)?;
    Ok(bump)
}

// The least number of bytes of an arena in which the turn succeeds. With any fewer the turn says that memory ran out,
// so each of its growths was refused once. An arena is reset only if each block came back.
fn least_arena(alloc: Global, turn: Turn) -> Result<Option<usize>, AllocError> {
    for left in 0..AMPLE {
        let mut bump = meagre(alloc, left)?;
        let ended = run(turn, &bump);
        if bump.reset().is_err() {
            return Ok(None);
        }
        match ended {
            Ok(true) => return Ok(Some(left)),
            Err(Bad::NoMemory) => {}
            Ok(false) | Err(Bad::Malformed) => return Ok(None),
        }
    }
    Ok(None)
}

// The same for a heap, in which a growing value moves to a block of its own.
fn least_heap(alloc: Global, turn: Turn) -> Result<Option<usize>, AllocError> {
    for units in 0..AMPLE / UNIT {
        let heap = LocalHeap::new(alloc, units * UNIT)?;
        let ended = run(turn, &heap);
        if heap.used() > 0 {
            return Ok(None);
        }
        match ended {
            Ok(true) => return Ok(Some(units * UNIT)),
            Err(Bad::NoMemory) => {}
            Ok(false) | Err(Bad::Malformed) => return Ok(None),
        }
    }
    Ok(None)
}

#[test]
fn growths_in_an_arena(rt: HostRuntime) -> Result<(), Fail> {
    for &turn in &TURNS {
        let least = least_arena(rt.alloc(), turn)?;
        assert!(rt; least.is_some_and(|left| left > 0));
    }
    Ok(())
}

#[test]
fn growths_in_a_heap(rt: HostRuntime) -> Result<(), Fail> {
    for &turn in &TURNS {
        let least = least_heap(rt.alloc(), turn)?;
        assert!(rt; least.is_some_and(|size| size > 0));
    }
    Ok(())
}

// How many growths the turn has, if it says that memory ran out exactly if one of them is refused, and otherwise
// succeeds. An `Err` says that memory ran out though none of them was refused.
fn growths_of(alloc: Global, turn: Turn) -> Result<Option<u64>, NoMemory> {
    for number in 1..MANY {
        let memory = Refusing::new(alloc, number);
        match (run(turn, &memory), memory.has_refused()) {
            (Err(Bad::NoMemory), true) => {}
            (Err(Bad::NoMemory), false) => return Err(NoMemory),
            (Ok(true), false) => return Ok(Some(number - 1)),
            _ => return Ok(None),
        }
    }
    Ok(None)
}

// The same in an arena, which is reset only if each block came back.
fn growths_in(bump: &mut Bump, turn: Turn) -> Result<Option<u64>, NoMemory> {
    for number in 1..MANY {
        let (ended, has_refused) = ends_in(bump, turn, number);
        if bump.reset().is_err() {
            return Ok(None);
        }
        match (ended, has_refused) {
            (Err(Bad::NoMemory), true) => {}
            (Err(Bad::NoMemory), false) => return Err(NoMemory),
            (Ok(true), false) => return Ok(Some(number - 1)),
            _ => return Ok(None),
        }
    }
    Ok(None)
}

// How the turn ends in an arena that refuses the growth of this number, and whether that growth came.
fn ends_in(bump: &Bump, turn: Turn, number: u64) -> (Result<bool, Bad>, bool) {
    let memory = Refusing::new(bump, number);
    (run(turn, &memory), memory.has_refused())
}

#[test]
fn each_growth_in_ordinary_memory(rt: HostRuntime) -> Result<(), Fail> {
    for &turn in &TURNS {
        let count = growths_of(rt.alloc(), turn)?;
        assert!(rt; count.is_some_and(|count| count > 0));
    }
    Ok(())
}

#[test]
fn each_growth_in_an_arena(rt: HostRuntime) -> Result<(), Fail> {
    let mut bump = Bump::new(rt.alloc());
    for &turn in &TURNS {
        let count = growths_of(rt.alloc(), turn)?;
        assert!(rt; growths_in(&mut bump, turn)? == count);
    }
    Ok(())
}

// Whether the turn succeeds, at the second try if memory ran out at the first one.
fn succeeds(alloc: Global, turn: Turn) -> bool {
    match run(turn, alloc) {
        Err(Bad::NoMemory) => run(turn, alloc) == Ok(true),
        first => first == Ok(true),
    }
}

// In a plain run nothing is refused here. `tools/growths` refuses the growth of number N: this test
// passes at each N.
#[test]
fn growths_in_ordinary_memory(rt: HostRuntime) {
    for &turn in &TURNS {
        assert!(rt; succeeds(rt.alloc(), turn));
    }
}
