// Marks, changes, undos and forgets in mixed order, against whole copies of what was there at each mark.

ghost use Rattle.std.specs.Prelude.{◌≡◌, length};
ghost use Rattle.std.specs.List.{zip};

use cq_trail::{Both, Mark, Stack, Trail, Undo};
use std::alloc::{AllocError, Global};
use std::test::Fail;

#[derive(Drop)]
struct Copied {
    first: Vec<u32>,
    second: Vec<u32>,
}

/// Two trails marked together, with a copy of them now and one for each live mark.
#[derive(Drop)]
struct Watched {
    trails: Both<Trail<u32>, Trail<u32>>,
    now: Copied,
    marked: Vec<Copied>,
    ghost together: { length marked.items ≡ length (zip trails.first.saved trails.second.saved) },
}

fn copy_of(alloc: Global, of: &Copied) -> Result<Copied, AllocError> {
    Ok(Copied {
        first: of.first.as_slice().to_vec(alloc)?,
        second: of.second.as_slice().to_vec(alloc)?,
    })
}

/// Adds a number, or changes one.
fn change(trail: &mut Trail<u32>, copy: &mut Vec<u32>, random: u32) -> Result<(), AllocError>
    ensures { trail.new.saved ≡ trail.old.saved }
{
    let at = (random % 61) as usize;
    if at < trail.len() && at < copy.len() {
        trail.set(at, random)?;
        copy[at] = random;
    } else {
        trail.push(random)?;
        copy.push(random)?;
    }
    Ok(())
}

fn change_first(watched: &mut Watched, random: u32) -> Result<(), AllocError> {
    let trails = &mut watched.trails;
    change(&mut trails.first, &mut watched.now.first, random)
}

fn change_second(watched: &mut Watched, random: u32) -> Result<(), AllocError> {
    let trails = &mut watched.trails;
    change(&mut trails.second, &mut watched.now.second, random)
}

fn mark(alloc: Global, watched: &mut Watched) -> Result<(), AllocError> {
    let now = copy_of(alloc, &watched.now)?;
    watched.marked.reserve(1)?;
    watched.trails.mark()?;
    watched.marked.push(now).unwrap();
    Ok(())
}

/// Undoes to the mark of this number, or forgets it, where it is live.
fn end_mark(watched: &mut Watched, number: usize, keeps: bool) {
    if number >= watched.marked.len() {
        return;
    }
    watched.marked.truncate(number + 1);
    if let Some(copy) = watched.marked.pop() {
        let m = Mark { number };
        if keeps {
            watched.trails.forget(m);
        } else {
            watched.trails.undo(m);
            watched.now = copy;
        }
    }
}

fn agrees(trail: &Trail<u32>, copy: &[u32]) -> bool {
    for (at, value) in copy.iter().enumerate() {
        if at >= trail.len() || *trail.get(at) != *value {
            return false;
        }
    }
    trail.len() == copy.len()
}

fn both_agree(watched: &Watched) -> bool {
    let trails = &watched.trails;
    agrees(&trails.first, &watched.now.first) && agrees(&trails.second, &watched.now.second)
}

fn new_watched(alloc: Global) -> Watched {
    Watched {
        trails: Both {
            first: Trail::new(alloc),
            second: Trail::new(alloc),
        },
        now: Copied {
            first: Vec::new(alloc),
            second: Vec::new(alloc),
        },
        marked: Vec::new(alloc),
    }
}

fn step(alloc: Global, watched: &mut Watched, random: u32) -> Result<(), AllocError> {
    match random % 9 {
        0 | 1 => mark(alloc, watched)?,
        2 => end_mark(watched, (random / 9 % 7) as usize, false),
        3 => end_mark(watched, (random / 9 % 7) as usize, true),
        4 | 5 | 6 => change_first(watched, random / 9)?,
        _ => change_second(watched, random / 9)?,
    }
    Ok(())
}

/// The turn after which the trails are something else than the copies.
fn first_unlike(alloc: Global) -> Result<Option<usize>, AllocError> {
    let mut watched = new_watched(alloc);
    let mut random: u32 = 20_261_126;
    for turn in 0..800 {
        random = random.wrapping_mul(1_664_525).wrapping_add(1_013_904_223);
        step(alloc, &mut watched, random >> 8)?;
        if !both_agree(&watched) {
            return Ok(Some(turn));
        }
    }
    Ok(None)
}

#[test]
fn goes_back_to_whole_copies(rt: HostRuntime) -> Result<(), Fail> {
    assert_eq!(rt; first_unlike(rt.alloc())?, None);
    Ok(())
}

/// Whether what was pushed behind a mark is gone once that is undone.
fn is_cut_off(stack: &mut Stack<u32>) -> Result<bool, AllocError> {
    let m = stack.mark()?;
    stack.push(8)?;
    stack.push(9)?;
    let grown = stack.as_slice() == [7, 8, 9].as_slice();
    stack.undo(m);
    Ok(grown && stack.as_slice() == [7].as_slice())
}

/// Whether there is room for one more then.
fn goes_on(stack: &mut Stack<u32>) -> Result<bool, AllocError> {
    stack.reserve_places(2)?;
    stack.push(5)?;
    Ok(stack.as_slice() == [7, 5].as_slice())
}

fn grows_and_goes_back(alloc: Global) -> Result<bool, AllocError> {
    let mut stack = Stack::new(alloc);
    let empty = stack.is_empty();
    stack.push(7)?;
    let cut = is_cut_off(&mut stack)?;
    let more = goes_on(&mut stack)?;
    Ok(empty && cut && more)
}

#[test]
fn a_list_that_grew_is_cut_off(rt: HostRuntime) -> Result<(), Fail> {
    assert!(rt; grows_and_goes_back(rt.alloc())?);
    Ok(())
}
