//! Counts of connections at points.

ghost use Rattle.std.specs.Prelude.{◌≡◌, ◌≤◌, ◌<◌, Some, true, find, vec_len, vec_capacity};
ghost use Rattle.std.specs.List.{position};
ghost use Rattle.app_rules.specs.Counts.{is_at, number_at, one_more, more_if, less_if, total, AreCounts};

/// How many connections are counted at a point.
#[derive(Clone, Copy)]
pub struct Count {
    pub point: u32,
    pub number: u32,
}

fn is_at(count: &Count, point: u32) -> bool
    ensures { result ≡ is_at point count.now }
{
    count.point == point
}

fn index_of(counts: &[Count], point: u32) -> Option<usize>
    ensures { result ≡ position (is_at point) counts.now }
{
    counts.iter().position(|count| is_at(count, point))
}

fn find_count(counts: &[Count], point: u32) -> Option<Count>
    ensures { result ≡ find (is_at point) counts.now }
{
    counts.iter().copied().find(|count| is_at(count, point))
}

/// The count at a point, 0 if none is kept.
pub(crate) fn number_at(counts: &[Count], point: u32) -> u32
    ensures { result ≡ number_at point counts.now }
{
    match find_count(counts, point) {
        Some(count) => count.number,
        None => 0,
    }
}

/// Adds one to the count of a point that has one.
fn raise(counts: &mut Vec<Count>, point: u32, at: usize)
    requires index { position (is_at point) counts.old.items ≡ Some at }
    requires few { total counts.old.items < 64 }
    ensures counts { counts.new.items ≡ one_more point counts.old.items }
    ensures capacity { vec_capacity counts.new ≡ vec_capacity counts.old }
{
    let count = &mut counts[at];
    count.number += 1;
}

/// Adds one to the count of a point, if the connection is counted. Takes no memory.
pub(crate) fn count_in_if(counts: &mut Vec<Count>, counted: bool, point: u32)
    requires few { total counts.old.items < 64 }
    requires space { vec_len counts.old < vec_capacity counts.old }
    ensures counts { counts.new.items ≡ more_if counted point counts.old.items }
    ensures capacity { vec_capacity counts.new ≡ vec_capacity counts.old }
{
    if !counted {
        return;
    }
    match index_of(counts, point) {
        Some(at) => raise(counts, point, at),
        None => counts.push_reserved(Count { point, number: 1 }),
    }
}

/// Subtracts one from the count of a point, if the connection was counted; a count of zero is removed. Takes no memory.
pub(crate) fn count_out_if(counts: &mut Vec<Count>, counted: bool, point: u32)
    requires some { counted ≡ true → 1 ≤ number_at point counts.old.items }
    requires counts { AreCounts counts.old.items }
    ensures counts { counts.new.items ≡ less_if counted point counts.old.items }
    ensures capacity { vec_capacity counts.new ≡ vec_capacity counts.old }
{
    if !counted {
        return;
    }
    // The count of the point is at least 1, so it is in the list.
    let at = index_of(counts, point).unwrap();
    if counts[at].number == 1 {
        counts.remove(at);
    } else {
        let count = &mut counts[at];
        count.number -= 1;
    }
}
