//! `table_bench`: work for measurements. It fills a table with keys drawn by a fixed seed, asks it for longest matches,
//! and prints what came of it. `bench/tables` runs it and takes the processor time.
#![tactic(auto)]

mod work;

use prefix_table::{PrefixTable, SortedTable, TrieTable};
use std::process::ExitCode;
use std::{env, io};
use work::{Kind, Work, read_work, run};

/// The exit status of a mistaken command line.
const MISTAKEN: u8 = 2;

/// The exit status of want of memory.
const NO_MEMORY: u8 = 5;

fn main(rt: HostRuntime) -> io::Result<ExitCode> {
    let words: Vec<String> = env::args(&rt)?.collect(rt.alloc())?;
    let Some(work) = read_work(words.as_slice()) else {
        eprintln!(rt; "use: table_bench sorted|trie KEYS MATCHES")?;
        return Ok(ExitCode::from(MISTAKEN));
    };
    let done = match work.kind {
        Kind::Sorted => run(&mut SortedTable::new(rt.alloc()), &work),
        Kind::Trie => run(&mut TrieTable::new(rt.alloc()), &work),
    };
    let Some((fresh, found)) = done else {
        eprintln!(rt; "memory")?;
        return Ok(ExitCode::from(NO_MEMORY));
    };
    let Work { keys, matches, .. } = work;
    println!(rt; "{keys} inserts, {fresh} of new keys; {matches} longest matches, {found} found")?;
    Ok(ExitCode::SUCCESS)
}
