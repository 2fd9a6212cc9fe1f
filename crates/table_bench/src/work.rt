//! What is measured.

ghost use Rattle.std.specs.Prelude.{◌≡◌, ◌≤◌, IfSome, length};

use decimal::read_decimal;
use net_prefix::{Addr, MAX_LEN, Prefix};
use prefix_table::PrefixTable;

/// Which table.
#[derive(Clone, Copy, Debug, PartialEq, Eq)]
pub(crate) enum Kind {
    Sorted,
    Trie,
}

/// How many keys to insert, and how many longest matches to ask for then.
#[derive(Clone, Copy, Debug)]
pub(crate) struct Work {
    pub(crate) kind: Kind,
    pub(crate) keys: u32,
    pub(crate) matches: u32,
}

/// The work that the words ask for. The first word is the program's name.
pub(crate) fn read_work(words: &[String]) -> Option<Work>
    ensures { IfSome result (λ _. length words.now ≡ 4) }
{
    let [_, kind, keys, matches] = words else {
        return None;
    };
    let kind = match kind.as_str() {
        "sorted" => Kind::Sorted,
        "trie" => Kind::Trie,
        _ => return None,
    };
    Some(Work {
        kind,
        keys: read_decimal(keys.as_bytes())?,
        matches: read_decimal(matches.as_bytes())?,
    })
}

/// Numbers by a linear congruence.
#[derive(Drop)]
struct Draws {
    state: u64,
}

impl Draws {
    fn draw(&mut self) -> u64 {
        self.state = self
            .state
            .wrapping_mul(6_364_136_223_846_793_005)
            .wrapping_add(1_442_695_040_888_963_407);
        self.state
    }

    /// A prefix of 8 to 24 bits.
    fn prefix(&mut self) -> Option<Prefix> {
        let drawn = self.draw();
        let len = 8 + ((drawn >> 24) % 17) as u8;
        let addr = (drawn >> 32) as u32;
        Prefix::new(Addr(addr & (u32::MAX << (MAX_LEN - len))), len)
    }
}

/// Inserts the keys, and asks for the longest matches. How many keys were new, and how many matches were found. None
/// for want of memory.
pub(crate) fn run<T: PrefixTable<u32>>(table: &mut T, work: &Work) -> Option<(u32, u32)>
    ensures { IfSome result (λ counts. (counts.0 ≤ work.now.keys) × (counts.1 ≤ work.now.matches)) }
{
    let mut draws = Draws { state: 7 };
    let fresh = fill(table, &mut draws, work.keys)?;
    Some((fresh, ask(table, &mut draws, work.matches)))
}

/// How many of the keys were new.
fn fill<T: PrefixTable<u32>>(table: &mut T, draws: &mut Draws, keys: u32) -> Option<u32>
    ensures { IfSome result (λ fresh. fresh ≤ keys) }
{
    let mut fresh = 0u32;
    for value in 0..keys {
        match table.insert(draws.prefix()?, value) {
            Ok(None) => fresh = fresh.saturating_add(1),
            Ok(Some(_)) => {}
            Err(_) => return None,
        }
    }
    Some(fresh)
}

/// How many of the longest matches were found.
fn ask<T: PrefixTable<u32>>(table: &T, draws: &mut Draws, matches: u32) -> u32
    ensures { result ≤ matches }
{
    let mut found = 0u32;
    for _turn in 0..matches {
        let addr = Addr((draws.draw() >> 32) as u32);
        if table.longest(addr, MAX_LEN).is_some() {
            found = found.saturating_add(1);
        }
    }
    found
}
