//! Closed walks in a graph, which is given by the targets of each number.
ghost use Rattle.std.specs.Prelude.{◌≡◌, ◌<◌, ◌∷◌, [], length, All, Contains, slice_index, IfOk, OnOk, MatchOption};
ghost use Rattle.schemars_cycles.specs.Words.{OnFalse, OnTrue, Walk, Leads, OnCycle, IsFree, IsLeast, targets_in, front_of, IsClosed, Falls, Meets, AreVisited};

use std::alloc::{AllocError, Global};

/// The least number on a closed walk.
///
/// It takes one step for each number and each edge where no walk closes. Otherwise each number is
/// tried in turn, at that cost each.
pub fn least_on_cycle(alloc: Global, graph: &[Vec<usize>]) -> Result<Option<usize>, AllocError>
    requires { IsClosed graph.now }
    ensures { IfOk result (λ r. MatchOption r (IsFree (OnCycle (Leads (targets_in graph.now))))
        (IsLeast (OnCycle (Leads (targets_in graph.now))))) }
{
    let ranks = ranks(alloc, graph)?;
    if falls(graph, &ranks) {
        return Ok(None);
    }
    for n in 0..graph.len() {
        if is_on_cycle(alloc, graph, n)? {
            return Ok(Some(n));
        }
    }
    Ok(None)
}

// Ranks that fall along each edge, where there are any: a number is ranked once its targets are.
// 0 is the rank of a number that was not met, and the greatest that of one whose targets are not
// ranked yet.
fn ranks(alloc: Global, graph: &[Vec<usize>]) -> Result<Vec<usize>, AllocError> {
    let mut ranks = vec![in alloc; 0; graph.len()]?;
    let mut waiting = Vec::new(alloc);
    let mut last: usize = 0;
    for n in 0..graph.len() {
        begin(&mut ranks, &mut waiting, n)?;
        for _ in 0..u64::MAX {
            let Some((m, place)) = waiting.pop() else {
                break;
            };
            if let Some(target) = target_at(graph, m, place) {
                waiting.push((m, place.saturating_add(1)))?;
                begin(&mut ranks, &mut waiting, target)?;
            } else if let Some(rank) = ranks.get_mut(m) {
                last = last.saturating_add(1);
                *rank = last;
            }
        }
    }
    Ok(ranks)
}

// A number that was not met waits until its targets are ranked, from the first on.
fn begin(
    ranks: &mut [usize],
    waiting: &mut Vec<(usize, usize)>,
    n: usize,
) -> Result<(), AllocError> {
    if let Some(rank) = ranks.get_mut(n)
        && *rank == 0
    {
        *rank = usize::MAX;
        waiting.push((n, 0))?;
    }
    Ok(())
}

fn target_at(graph: &[Vec<usize>], n: usize, place: usize) -> Option<usize> {
    graph.get(n)?.get(place).copied()
}

fn falls(graph: &[Vec<usize>], ranks: &[usize]) -> bool
    ensures { OnTrue result (Falls graph.now ranks.now) }
{
    for (n, targets) in graph.iter().enumerate() {
        if !are_below(ranks, targets, rank_of(ranks, n)) {
            return false;
        }
    }
    true
}

fn rank_of(ranks: &[usize], n: usize) -> usize
    ensures { result ≡ slice_index ranks.now n }
{
    ranks.get(n).copied().unwrap_or(0)
}

fn are_below(ranks: &[usize], numbers: &[usize], bound: usize) -> bool
    ensures { OnTrue result (All (λ m. slice_index ranks.now m < bound) numbers.now) }
{
    for m in numbers {
        if rank_of(ranks, *m) >= bound {
            return false;
        }
    }
    true
}

fn is_on_cycle(alloc: Global, graph: &[Vec<usize>], n: usize) -> Result<bool, AllocError>
    requires closed { IsClosed graph.now }
    requires within { n < length graph.now }
    ensures yes { IfOk result (λ b. OnTrue b (OnCycle (Leads (targets_in graph.now)) n)) }
    ensures no { IfOk result (λ b. OnFalse b (¬ OnCycle (Leads (targets_in graph.now)) n)) }
{
    let met = reached(alloc, graph, n)?;
    let is_met = met[n];
    Ok(is_met)
}

// The numbers at the ends of walks from `from`.
fn reached(alloc: Global, graph: &[Vec<usize>], from: usize) -> Result<Vec<bool>, AllocError>
    requires closed { IsClosed graph.now }
    requires within { from < length graph.now }
    ensures len { IfOk result (λ met. length met.items ≡ length graph.now) }
    ensures reached { IfOk result (λ met. AreVisited graph.now from met.items) }
{
    let mut met = vec![in alloc; false; graph.len()]?;
    let mut waiting = Vec::new(alloc);
    meet_targets(&mut met, &mut waiting, graph, from)?;
    while let Some(n) = waiting.pop() {
        meet_targets(&mut met, &mut waiting, graph, n)?;
    }
    Ok(met)
}

fn meet_targets(
    met: &mut Vec<bool>,
    waiting: &mut Vec<usize>,
    graph: &[Vec<usize>],
    n: usize,
) -> Result<(), AllocError>
    requires closed { IsClosed graph.now }
    requires within { n < length graph.now }
    requires len { length met.old.items ≡ length graph.now }
    ensures { OnOk result (Meets (targets_in graph.now n)
        (front_of met.old.items waiting.old.items) (front_of met.new.items waiting.new.items)) }
{
    meet(met, waiting, &graph[n])?;
    Ok(())
}

fn meet(met: &mut Vec<bool>, waiting: &mut Vec<usize>, numbers: &[usize]) -> Result<(), AllocError>
    requires { All (λ m. m < length met.old.items) numbers.now }
    ensures { OnOk result (Meets numbers.now (front_of met.old.items waiting.old.items)
        (front_of met.new.items waiting.new.items)) }
{
    for m in numbers {
        meet_one(met, waiting, *m)?;
    }
    Ok(())
}

fn meet_one(met: &mut Vec<bool>, waiting: &mut Vec<usize>, m: usize) -> Result<(), AllocError>
    requires { m < length met.old.items }
    ensures { OnOk result (Meets (m ∷ []) (front_of met.old.items waiting.old.items)
        (front_of met.new.items waiting.new.items)) }
{
    if !met[m] {
        met[m] = true;
        waiting.push(m)?;
    }
    Ok(())
}
