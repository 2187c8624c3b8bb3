//! Puts versions into an arena list and into a sorted map of std, and reads them back: with no word two thousand, and it
//! prints how many reads found a version in each; with a word after the program's name up to a million, with the
//! microseconds of both.
//!
//! Stands on `arena_list` for the list, and on `wal_base` for bytes. The bench in `bench/index` runs it with that word.
//!
//! The map is from a key and a number to a value or none, the numbers from the greatest down, as the list is. A read of
//! it is for the first entry from a key and a number on.
#![tactic(auto)]

mod draws;
mod list_run;
mod map_run;

use crate::draws::{Draws, Shape};
use std::alloc::Global;
use std::io::Print;
use std::time::{Clock, Instant};
use std::{env, io};
use wal_base::NoMemory;

/// How many versions, of how many keys, there are where no times are asked for.
const FEW: Shape = Shape {
    versions: 2_000,
    keys: 500,
    len: 8,
    ordered: false,
};

/// How many versions there are where times are asked for.
const MANY: [u32; 3] = [1_000, 100_000, 1_000_000];

/// How many keys have all versions, in one half of the runs; in the other half each version has a key of its own.
const KEYS: u32 = 1_000;

/// How many bytes a key has.
const LENGTHS: [usize; 2] = [8, 100];

/// What a run came to, in microseconds, and how many reads found a version.
#[derive(Drop)]
struct Times {
    insert: u128,
    read: u128,
    found: u64,
}

fn had<T: Drop>(done: Result<T, NoMemory>) -> io::Result<T> {
    match done {
        Ok(value) => Ok(value),
        Err(NoMemory) => Err(io::ErrorKind::OutOfMemory.into()),
    }
}

/// Fills a list, and reads it.
fn list_timed<R: Clock>(rt: &R, alloc: Global, draws: &Draws) -> io::Result<Times> {
    let start = Instant::now(rt)?;
    let list = had(list_run::fill(alloc, draws))?;
    let insert = start.elapsed(rt)?.as_micros();
    let start = Instant::now(rt)?;
    let found = list_run::read(&list, draws);
    let read = start.elapsed(rt)?.as_micros();
    Ok(Times {
        insert,
        read,
        found,
    })
}

/// Fills a map, and reads it.
fn map_timed<R: Clock>(rt: &R, alloc: Global, draws: &Draws) -> io::Result<Times> {
    let start = Instant::now(rt)?;
    let map = had(map_run::fill(alloc, draws))?;
    let insert = start.elapsed(rt)?.as_micros();
    let start = Instant::now(rt)?;
    let found = had(map_run::read(alloc, &map, draws))?;
    let read = start.elapsed(rt)?.as_micros();
    Ok(Times {
        insert,
        read,
        found,
    })
}

/// Runs both, and prints a line of the shape and the times.
fn show_timed<R: Clock + Print>(rt: &R, alloc: Global, shape: Shape) -> io::Result<()> {
    let draws = had(Draws::new(alloc, shape))?;
    let list = list_timed(rt, alloc, &draws)?;
    let map = map_timed(rt, alloc, &draws)?;
    let Shape {
        versions,
        keys,
        len,
        ordered,
    } = shape;
    println!(rt;
        "{versions} {keys} {len} {ordered} {} {}",
        list.found, map.found
    )?;
    println!(rt; "{} {} {} {}", list.insert, map.insert, list.read, map.read)
}

/// Runs both over few versions, and prints how many reads found one.
fn show_few<R: Clock + Print>(rt: &R, alloc: Global) -> io::Result<()> {
    let draws = had(Draws::new(alloc, FEW))?;
    let list = list_timed(rt, alloc, &draws)?;
    let map = map_timed(rt, alloc, &draws)?;
    println!(rt; "list {}", list.found)?;
    println!(rt; "map {}", map.found)
}

/// Runs both over all shapes of so many versions and keys.
fn show_shapes<R: Clock + Print>(
    rt: &R,
    alloc: Global,
    versions: u32,
    keys: u32,
) -> io::Result<()> {
    for len in &LENGTHS {
        for ordered in &[false, true] {
            let shape = Shape {
                versions,
                keys,
                len: *len,
                ordered: *ordered,
            };
            show_timed(rt, alloc, shape)?;
        }
    }
    Ok(())
}

fn main(rt: HostRuntime) -> io::Result<()> {
    let alloc = rt.alloc();
    if env::args(&rt)?.skip(1).next().is_none() {
        return show_few(&rt, alloc);
    }
    for versions in &MANY {
        for keys in &[KEYS, *versions] {
            show_shapes(&rt, alloc, *versions, *keys)?;
        }
    }
    Ok(())
}
