// Reads a book from standard input and writes its canonical text, or one line with the refusal.
#![tactic(auto)]

use makes::rows::AtomRow;
use stamps::route::Route;
use stamps::then::Then;
use stamps::tick::Tick;
use std::io;
use std::io::{Read, Write};
use writing::reply::{MAX_INPUT, Tables, reply};

const TABLE: usize = 1024;

// All of standard input, or a little more than is ever read of it.
// By parts: `take` and `read_to_end` ask for 512 bytes first, which cuts a longer packet of a pipe,
// and stop at the limit, so that a read that fails past it is not told.
fn input(rt: &HostRuntime) -> io::Result<Vec<u8>> {
    let mut text = Vec::new(rt.alloc());
    let mut stdin = rt.stdin();
    let mut part = [0u8; 4096];
    for _ in 0..MAX_INPUT + 1 {
        let count = stdin.read(&mut part)?;
        if count == 0 || text.len() > MAX_INPUT {
            break;
        }
        text.extend_from_slice(&part[..count])?;
    }
    Ok(text)
}

fn run(rt: &HostRuntime) -> anyhow::Result<()> {
    let heap = rt.alloc();
    let text = input(rt)?;
    let tick = Tick(0);
    let mut ticks = vec![in heap; AtomRow {
        stamp: tick,
        reading: false
    }; TABLE]?;
    let mut routes = vec![in heap; AtomRow {
        stamp: Route { aisles: 0 },
        reading: false
    }; TABLE]?;
    let mut pairs = vec![in heap; AtomRow {
        stamp: Then {
            first: tick,
            second: tick
        },
        reading: false
    }; TABLE]?;
    let mut rules = vec![in heap; None; TABLE]?;
    let mut sheet = vec![in heap; 0u8; MAX_INPUT]?;
    let tables = Tables {
        ticks: &mut ticks,
        routes: &mut routes,
        pairs: &mut pairs,
        rules: &mut rules,
    };
    let length = reply(&text, tables, &mut sheet);
    if let Some(written) = sheet.get(0..length) {
        rt.stdout().write_all(written)?;
    }
    Ok(())
}

fn main(rt: HostRuntime) -> anyhow::Result<()> {
    run(&rt)
}
