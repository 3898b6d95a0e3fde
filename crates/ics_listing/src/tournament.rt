//! A tournament that finds the first of several leads.
ghost use Rattle.std.specs.Prelude.{◌≡◌, ◌+◌, ◌<◌, All, IfOk, length, map};
ghost use Rattle.std.specs.Option.{option_map};
ghost use Rattle.std.specs.Ordering.{is_lt};
ghost use Rattle.ics_listing.specs.Entry.{entry_of};
ghost use Rattle.ics_listing.specs.Inner.Tournament.{above, first_below, first_place, head_cmp, lead_cmp, node_count, turn_of, winner, AreSettled};
ghost use Rattle.ics_listing.specs.Inner.Tournament.{AreSettledBut, IsUnheld};
ghost use Rattle.ics_listing.specs.Uids.{AreHeadsSorted, IsPlaceOrder};

use crate::feed::Coming;
use crate::lead::Lead;
use crate::occurrence::Occurrence;
use std::alloc::{AllocError, Global};
use std::cmp::Ordering;

/// For each node of a tournament of the leads, the first of those below it. One lead alone needs no node. From a place on the leads
/// stand in the order of the UIDs that they hold.
pub(crate) fn winners<'a, F: Coming>(
    alloc: Global,
    leads: &[Lead<'a, F>],
    sorted_from: usize,
) -> Result<Vec<usize>, AllocError>
    requires { AreHeadsSorted sorted_from (map (λ l. option_map entry_of l.head) leads.now) }
    ensures length { IfOk result (λ winners. length winners.items ≡ node_count (length leads.now)) }
    ensures leads { IfOk result (λ winners. All (λ lead. lead < length leads.now) winners.items) }
    ensures settled { IfOk result (λ winners. AreSettled (map (λ l. turn_of l.unread l.head) leads.now) winners.items) }
{
    if leads.len() < 2 {
        return Ok(Vec::new(alloc));
    }
    let mut winners = vec![in alloc; 0; leads.len()]?;
    for node in (1..leads.len()).rev() {
        winners[node] = first_below(leads, sorted_from, &winners, node);
    }
    Ok(winners)
}

/// Decides the nodes above a lead again, after it has drawn.
pub(crate) fn replay<'a, F: Coming>(
    leads: &[Lead<'a, F>],
    sorted_from: usize,
    winners: &mut [usize],
    lead: usize,
)
    requires sorted { AreHeadsSorted sorted_from (map (λ l. option_map entry_of l.head) leads.now) }
    requires lead { lead < length leads.now }
    requires length { length winners.old ≡ node_count (length leads.now) }
    requires leads { All (λ lead. lead < length leads.now) winners.old }
    requires settled { AreSettledBut (above 1 (length winners.old + lead)) (map (λ l. turn_of l.unread l.head) leads.now) winners.old }
    ensures leads { All (λ lead. lead < length leads.now) winners.new }
    ensures settled { AreSettled (map (λ l. turn_of l.unread l.head) leads.now) winners.new }
{
    let mut node = (winners.len() + lead) / 2;
    while node > 0 {
        winners[node] = first_below(leads, sorted_from, winners, node);
        node /= 2;
    }
}

/// The lead that has won at the first node or, where there are no nodes, the one that there is.
pub(crate) fn first_place(winners: &[usize]) -> usize
    ensures { result ≡ first_place winners.now }
{
    match winners.get(1) {
        None => 0,
        Some(lead) => *lead,
    }
}

/// The lead that has won at a node.
fn winner(winners: &[usize], node: usize) -> usize
    ensures { result ≡ winner winners.now node }
{
    if node < winners.len() {
        winners[node]
    } else {
        node - winners.len()
    }
}

/// The order of two leads' UIDs, if their places tell it.
pub(crate) fn order_by_place(sorted_from: usize, one: usize, other: usize) -> Option<Ordering>
    ensures { IsPlaceOrder sorted_from one other result }
{
    if one < sorted_from || other < sorted_from {
        None
    } else {
        Some(one.cmp(&other))
    }
}

/// The first of the two leads that have won at the nodes below this one.
fn first_below<'a, F: Coming>(
    leads: &[Lead<'a, F>],
    sorted_from: usize,
    winners: &[usize],
    node: usize,
) -> usize
    requires sorted { AreHeadsSorted sorted_from (map (λ l. option_map entry_of l.head) leads.now) }
    requires node { node < length winners.now }
    requires length { length winners.now ≡ length leads.now }
    requires leads { All (λ lead. lead < length leads.now) winners.now }
    ensures lead { result < length leads.now }
    ensures first { result ≡ first_below (map (λ l. turn_of l.unread l.head) leads.now) winners.now node }
{
    let one = winner(winners, 2 * node);
    let other = winner(winners, 2 * node + 1);
    if goes_first(leads, sorted_from, one, other) {
        one
    } else {
        other
    }
}

/// Whether a lead is before another: by their turns and, if these are the same, by their places.
fn goes_first<'a, F: Coming>(
    leads: &[Lead<'a, F>],
    sorted_from: usize,
    one: usize,
    other: usize,
) -> bool
    requires sorted { AreHeadsSorted sorted_from (map (λ l. option_map entry_of l.head) leads.now) }
    requires one { one < length leads.now }
    requires other { other < length leads.now }
    ensures { result ≡ is_lt (lead_cmp (map (λ l. turn_of l.unread l.head) leads.now) one other) }
{
    match (&leads[one].head, &leads[other].head) {
        (Some(a), Some(b)) => {
            let uids = order_by_place(sorted_from, one, other);
            Occurrence::compare(a, b, uids)
                .then(one.cmp(&other))
                .is_lt()
        }
        _ => compare_unheld(&leads[one], &leads[other])
            .then(one.cmp(&other))
            .is_lt(),
    }
}

/// The order of two leads' turns, of which one holds nothing. One that was not read yet is before those that
/// hold an occurrence from its instant on, and one that has ended is behind all.
fn compare_unheld<'a, F: Coming>(one: &Lead<'a, F>, other: &Lead<'a, F>) -> Ordering
    requires { IsUnheld one.now.head other.now.head }
    ensures { result ≡ head_cmp (turn_of one.now.unread one.now.head) (turn_of other.now.unread other.now.head) }
{
    match (one.from(), other.from()) {
        (Some(a), Some(b)) => a
            .cmp(&b)
            .then(one.head.is_some().cmp(&other.head.is_some())),
        (Some(_), None) => Ordering::Less,
        (None, Some(_)) => Ordering::Greater,
        (None, None) => Ordering::Equal,
    }
}
