//! Standings in a vector, in groups: a group are the routes of one neighbouring AS, or all routes where MED is
//! compared whatever the neighbouring AS. Each stands in the order of all filters, so that its leader comes first. The
//! groups lie one behind the other, and behind them what is excluded.

ghost use Rattle.std.specs.Prelude.{◌≡◌, ◌<◌, ◌≤◌, ◌+◌, nat_lt, if◌then◌else◌, length, true, Some, IfSome, IfNone};
ghost use Rattle.std.specs.Option.{option_copied};
ghost use Rattle.std.specs.FinMap.{find};
ghost use Rattle.route_select.specs.Selection.{considered_in, same_group, source_cmp};
ghost use Rattle.route_select.specs.Entries.{candidate_at};
ghost use Rattle.route_select.specs.Leaders.{In, Leads};
ghost use Rattle.route_select.specs.Groups.{group_rank, stands_before, before, AreRanked, IsBest, IsPositionOf, IsSlot, IsGroupStart, is_below, is_better, keeps_best};

use crate::candidate::{Candidate, Source, Standing};
use crate::filter::{FILTERS, UNMED};

/// The route at a position, where there is one that is considered.
pub(crate) fn candidate_at(entries: &[(Source, Standing)], at: usize) -> Option<&Candidate>
    ensures { option_copied result ≡ candidate_at entries.now at }
{
    match entries.get(at) {
        Some(entry) => entry.1.candidate(),
        None => None,
    }
}

/// Where the route's group stands among the groups: the number of the neighbouring AS, plus 1, and 0 for none. All are
/// one group, of rank 0, where MED is compared whatever the neighbouring AS.
fn group_rank(med_always: bool, candidate: &Candidate) -> u64
    ensures value { result ≡ group_rank med_always candidate.now }
    ensures bound { result ≤ 4294967296 }
{
    if med_always {
        return 0;
    }
    match candidate.attr.path().neighbour() {
        Some(asn) => u64::from(asn.number()) + 1,
        None => 0,
    }
}

/// Whether the first stands before the second: in an earlier group, or in the same one and ahead.
fn stands_before(med_always: bool, a: &Candidate, b: &Candidate) -> bool
    ensures { result ≡ stands_before med_always a.now b.now }
{
    let (mine, theirs) = (group_rank(med_always, a), group_rank(med_always, b));
    mine < theirs || (mine == theirs && a.is_ahead(med_always, &FILTERS, b))
}

/// Whether an entry stands before another. What is excluded comes last, in order of source.
fn goes_before(
    med_always: bool,
    source: Source,
    standing: &Standing,
    other: &(Source, Standing),
) -> bool
    ensures { result ≡ before med_always (source, standing.now) other.now }
{
    match (standing, &other.1) {
        (Standing::Considered(a), Standing::Considered(b)) => stands_before(med_always, a, b),
        (Standing::Considered(_), Standing::Excluded(_)) => true,
        (Standing::Excluded(_), Standing::Considered(_)) => false,
        (Standing::Excluded(_), Standing::Excluded(_)) => source < other.0,
    }
}

/// The position of the source's entry.
pub(crate) fn position_of(entries: &[(Source, Standing)], source: Source) -> Option<usize>
    ensures found { IfSome result (IsPositionOf entries.now source) }
    ensures absent { IfNone result (find source_cmp source entries.now ≡ None) }
{
    for (i, entry) in entries.iter().enumerate() {
        if source.cmp(&entry.0).is_eq() {
            return Some(i);
        }
    }
    None
}

/// The position where an entry goes.
pub(crate) fn slot(
    med_always: bool,
    entries: &[(Source, Standing)],
    source: Source,
    standing: &Standing,
) -> usize
    requires { AreRanked med_always entries.now }
    ensures { IsSlot med_always entries.now (source, standing.now) result }
{
    entries.partition_point(|entry| !goes_before(med_always, source, standing, entry))
}

/// Whether an entry is of a group of lower rank.
fn is_below(med_always: bool, entry: &(Source, Standing), rank: u64) -> bool
    ensures { result ≡ is_below med_always rank entry.now }
{
    match entry.1.candidate() {
        Some(candidate) => group_rank(med_always, candidate) < rank,
        None => false,
    }
}

/// The position behind the groups of lower rank.
fn group_start(med_always: bool, entries: &[(Source, Standing)], rank: u64) -> usize
    requires { AreRanked med_always entries.now }
    ensures { IsGroupStart med_always entries.now rank result }
{
    entries.partition_point(|entry| is_below(med_always, entry, rank))
}

/// The position behind the group of the route at a position: mostly the next one, since most groups are of one route.
fn group_end(
    med_always: bool,
    entries: &[(Source, Standing)],
    at: usize,
    candidate: &Candidate,
) -> usize
    requires ranked { AreRanked med_always entries.now }
    requires here { candidate_at entries.now at ≡ Some candidate.now }
    ensures { IsGroupStart med_always entries.now (group_rank med_always candidate.now + 1) result }
{
    let rank = group_rank(med_always, candidate) + 1;
    match candidate_at(entries, at + 1) {
        Some(next) if group_rank(med_always, next) < rank => {
            group_start(med_always, entries, rank)
        }
        _ => at + 1,
    }
}

/// Whether the route at a position is ahead of the best so far in the order without MED.
fn is_better(med_always: bool, entries: &[(Source, Standing)], at: usize, best: usize) -> bool
    ensures { result ≡ is_better med_always (candidate_at entries.now at) (candidate_at entries.now best) }
{
    match (candidate_at(entries, at), candidate_at(entries, best)) {
        (Some(c), Some(b)) => c.is_ahead(med_always, &UNMED, b),
        _ => false,
    }
}

/// The position of the best: of the leaders the first in the order without MED. Where nothing is considered, no route
/// is there.
pub(crate) fn best_position(med_always: bool, entries: &[(Source, Standing)]) -> usize
    requires { AreRanked med_always entries.now }
    ensures best { IsBest med_always (considered_in entries.now) (candidate_at entries.now result) }
    ensures bound { result ≤ length entries.now }
{
    let Some(first) = candidate_at(entries, 0) else {
        return 0;
    };
    let mut best = 0;
    let mut at = group_end(med_always, entries, 0, first);
    while let Some(leader) = candidate_at(entries, at) {
        if is_better(med_always, entries, at, best) {
            best = at;
        }
        at = group_end(med_always, entries, at, leader);
    }
    best
}

/// Whether the best of the others stays the best beside a new entry: it does where that is excluded, and where its
/// route is not ahead without MED, and does not lead the best one's group.
pub(crate) fn keeps_best(
    med_always: bool,
    new: Option<&Candidate>,
    best: Option<&Candidate>,
) -> bool
    ensures { result ≡ keeps_best med_always (option_copied new.entry) (option_copied best.entry) }
{
    match (new, best) {
        (_, None) => false,
        (None, Some(_)) => true,
        (Some(c), Some(b)) => {
            !c.is_ahead(med_always, &UNMED, b)
                && !(c.is_grouped_with(med_always, b) && c.is_ahead(med_always, &FILTERS, b))
        }
    }
}

/// Where what stood at a position stands once an entry was put in at another.
pub(crate) fn moved(place: usize, at: usize) -> usize
    requires { place < 4294967296 }
    ensures { result ≡ (if nat_lt place at then place else place + 1) }
{
    if place < at { place } else { place + 1 }
}

/// The leader of a route's group: the first of it.
pub(crate) fn leader<'a>(
    med_always: bool,
    entries: &'a [(Source, Standing)],
    like: &Candidate,
) -> &'a Candidate
    requires ranked { AreRanked med_always entries.now }
    requires member { In like.now (considered_in entries.now) }
    ensures leads { Leads med_always (considered_in entries.now) result.now }
    ensures same { same_group med_always like.now result.now ≡ true }
{
    let start = group_start(med_always, entries, group_rank(med_always, like));
    match candidate_at(entries, start) {
        Some(first) => first,
        None => unreachable!(),
    }
}
