//! Small graphs, with what their numbers reach by hand.
ghost use Rattle.std.specs.Prelude.{◌≡◌, ℕ, ◌<◌, length, Contains, IsTrue, IfOk, OnOk};
ghost use Rattle.number_graph.specs.Graphs.{AreLinksWithin};
ghost use Rattle.number_graph.specs.Implications.{AreImplicationsWithin};

use super::*;
use std::alloc::{AllocError, Global};
use std::test::*;

/// Links the numbers where both are below the count.
fn link_within(links: &mut Links, from: u16, to: u16) -> Result<(), AllocError>
    requires { AreLinksWithin links.old }
    ensures { OnOk result ((length links.new ≡ length links.old) × AreLinksWithin links.new) }
{
    if (from as usize) < links.count() && (to as usize) < links.count() {
        links.add(from, to)?;
    }
    Ok(())
}

/// So many numbers, and the links among them.
fn links_of(alloc: Global, count: usize, pairs: &[(u16, u16)]) -> Result<Links, AllocError>
    ensures { IfOk result (λ links. (length links ≡ count) × AreLinksWithin links) }
{
    let mut links = Links::new(alloc, count)?;
    for pair in pairs {
        link_within(&mut links, pair.0, pair.1)?;
    }
    Ok(links)
}

/// What the number of the graph reaches.
fn reached(
    alloc: Global,
    count: usize,
    pairs: &[(u16, u16)],
    from: u16,
) -> Result<Vec<u16>, AllocError>
    requires { from < count }
{
    let links = links_of(alloc, count, pairs)?;
    reached_from(alloc, &links, from)
}

/// Whether one of the starts reaches each number of a graph of four.
fn reached_by(alloc: Global, pairs: &[(u16, u16)], starts: &[u16]) -> Result<Vec<bool>, AllocError>
    requires { (n : ℕ) → Contains starts.now n → n < 4 }
{
    let links = links_of(alloc, 4, pairs)?;
    reached_from_any(alloc, &links, starts)
}

/// Whether each number of a graph of four reaches itself.
fn on_cycles(alloc: Global, pairs: &[(u16, u16)]) -> Result<Vec<bool>, AllocError> {
    let links = links_of(alloc, 4, pairs)?;
    let mut answers = Vec::new(alloc);
    for number in 0..4 {
        answers.push(reaches_itself(alloc, &links, number)?)?;
    }
    Ok(answers)
}

/// The heights of the numbers of a graph of five.
fn heights_of(alloc: Global, pairs: &[(u16, u16)]) -> Result<Vec<Option<u16>>, AllocError> {
    let links = links_of(alloc, 5, pairs)?;
    heights(alloc, &links)
}

/// The least number of a graph of five that reaches itself.
fn least(alloc: Global, pairs: &[(u16, u16)]) -> Result<Option<u16>, AllocError> {
    let links = links_of(alloc, 5, pairs)?;
    let told = heights(alloc, &links)?;
    least_on_cycle(alloc, &links, told.as_slice())
}

fn are_below(numbers: &[u16], total: usize) -> bool
    ensures { IsTrue result → (n : ℕ) → Contains numbers.now n → n < total }
{
    for number in numbers {
        if *number as usize >= total {
            return false;
        }
    }
    true
}

/// Adds the implication where its numbers are below the total.
fn add_within(
    implications: &mut Implications,
    total: usize,
    premises: &[u16],
    conclusion: u16,
) -> Result<(), AllocError>
    requires { AreImplicationsWithin total implications.old }
    ensures { OnOk result (AreImplicationsWithin total implications.new) }
{
    if are_below(premises, total) {
        if (conclusion as usize) < total {
            implications.add(premises, conclusion)?;
        }
    }
    Ok(())
}

/// For each of six numbers, whether it follows from the implications.
fn following(alloc: Global, pairs: &[(&[u16], u16)]) -> Result<Vec<bool>, AllocError> {
    let mut implications = Implications::new(alloc)?;
    for pair in pairs {
        add_within(&mut implications, 6, pair.0, pair.1)?;
    }
    consequences(alloc, 6, &implications)
}

/// The numbers that each number of a graph of three is linked to, one after another.
fn linked(alloc: Global, pairs: &[(u16, u16)]) -> Result<Vec<u16>, AllocError> {
    let links = links_of(alloc, 3, pairs)?;
    let mut all = Vec::new(alloc);
    for number in 0..3 {
        let _ = all.extend_from_slice(links.from(number));
    }
    Ok(all)
}

#[test]
fn each_link_is_kept_once_in_rising_order(rt: HostRuntime) -> Result<(), Fail> {
    let cases: [(&[(u16, u16)], &[u16]); 5] = [
        (&[], &[]),
        (&[(1, 2), (1, 0)], &[0, 2]),
        (&[(2, 0), (0, 1), (2, 2)], &[1, 0, 2]),
        (&[(1, 1), (1, 1)], &[1]),
        (&[(0, 2), (0, 0), (0, 1), (0, 2), (0, 0)], &[0, 1, 2]),
    ];
    for (pairs, want) in &cases {
        let all = linked(rt.alloc(), pairs)?;
        assert_eq!(rt; all.as_slice(), *want, "of {pairs:?}");
    }
    Ok(())
}

#[test]
fn a_reaches_itself_and_what_links_lead_to(rt: HostRuntime) -> Result<(), Fail> {
    let chain: &[(u16, u16)] = &[(0, 1), (1, 2), (2, 3)];
    let ring: &[(u16, u16)] = &[(0, 1), (1, 2), (2, 0), (3, 0)];
    let fork: &[(u16, u16)] = &[(0, 3), (0, 2), (2, 2)];
    let cases: [(&[(u16, u16)], u16, &[u16]); 7] = [
        (&[], 1, &[1]),
        (chain, 0, &[0, 1, 2, 3]),
        (chain, 2, &[2, 3]),
        (ring, 1, &[0, 1, 2]),
        (ring, 3, &[0, 1, 2, 3]),
        (fork, 0, &[0, 2, 3]),
        (fork, 2, &[2]),
    ];
    for (pairs, from, want) in &cases {
        let numbers = reached(rt.alloc(), 4, pairs, *from)?;
        assert_eq!(rt; numbers.as_slice(), *want, "from {from} by {pairs:?}");
    }
    Ok(())
}

#[test]
fn what_any_of_the_starts_leads_to_is_reached(rt: HostRuntime) -> Result<(), Fail> {
    let fork: &[(u16, u16)] = &[(0, 3), (0, 2), (2, 2)];
    let none = reached_by(rt.alloc(), fork, &[])?;
    assert_eq!(rt; none.as_slice(), [false, false, false, false].as_slice());
    let both = reached_by(rt.alloc(), fork, &[1, 2])?;
    assert_eq!(rt; both.as_slice(), [false, true, true, false].as_slice());
    let twice = reached_by(rt.alloc(), fork, &[2, 0, 2])?;
    assert_eq!(rt; twice.as_slice(), [true, false, true, true].as_slice());
    Ok(())
}

#[test]
fn a_number_on_a_cycle_reaches_itself(rt: HostRuntime) -> Result<(), Fail> {
    let cases: [(&[(u16, u16)], [bool; 4]); 5] = [
        (&[], [false, false, false, false]),
        (&[(0, 1), (1, 2), (2, 3)], [false, false, false, false]),
        (&[(0, 1), (1, 2), (2, 0), (3, 0)], [true, true, true, false]),
        (&[(0, 3), (0, 2), (2, 2)], [false, false, true, false]),
        (&[(1, 0), (1, 3), (3, 1)], [false, true, false, true]),
    ];
    for (pairs, want) in &cases {
        let answers = on_cycles(rt.alloc(), pairs)?;
        assert_eq!(rt; answers.as_slice(), want.as_slice(), "of {pairs:?}");
    }
    Ok(())
}

#[test]
fn the_longest_chain_from_each_number_is_measured(rt: HostRuntime) -> Result<(), Fail> {
    let cases: [(&[(u16, u16)], [Option<u16>; 5]); 5] = [
        (&[], [Some(0), Some(0), Some(0), Some(0), Some(0)]),
        (
            &[(0, 1), (1, 2), (2, 3), (3, 4)],
            [Some(4), Some(3), Some(2), Some(1), Some(0)],
        ),
        (
            &[(4, 3), (4, 0), (3, 2), (2, 0), (1, 0), (4, 3)],
            [Some(0), Some(1), Some(1), Some(2), Some(3)],
        ),
        (
            &[(0, 1), (1, 2), (2, 1), (3, 4), (2, 3)],
            [None, None, None, Some(1), Some(0)],
        ),
        (
            &[(2, 2), (3, 2), (0, 4)],
            [Some(1), Some(0), None, None, Some(0)],
        ),
    ];
    for (pairs, want) in &cases {
        let told = heights_of(rt.alloc(), pairs)?;
        assert_eq!(rt; told.as_slice(), want.as_slice(), "of {pairs:?}");
    }
    Ok(())
}

#[test]
fn the_least_number_on_a_cycle_is_told(rt: HostRuntime) -> Result<(), Fail> {
    let cases: [(&[(u16, u16)], Option<u16>); 5] = [
        (&[], None),
        (&[(0, 1), (1, 2), (2, 3), (3, 4), (0, 4)], None),
        (&[(0, 1), (1, 2), (2, 1), (4, 4)], Some(1)),
        (&[(0, 3), (3, 4), (4, 3)], Some(3)),
        (&[(4, 0), (0, 4)], Some(0)),
    ];
    for (pairs, want) in &cases {
        let found = least(rt.alloc(), pairs)?;
        assert_eq!(rt; found, *want, "of {pairs:?}");
    }
    Ok(())
}

#[test]
fn a_conclusion_follows_once_all_its_premises_do(rt: HostRuntime) -> Result<(), Fail> {
    let chain: &[(&[u16], u16)] = &[(&[4], 5), (&[3], 4), (&[2], 3), (&[], 2)];
    let missing: &[(&[u16], u16)] = &[(&[], 0), (&[], 1), (&[0, 2, 1], 3), (&[1, 0, 1], 4)];
    let circle: &[(&[u16], u16)] = &[(&[0], 1), (&[1], 0), (&[1, 2], 3), (&[], 2)];
    let either: &[(&[u16], u16)] = &[(&[0], 5), (&[1], 5), (&[5, 1], 2), (&[], 1), (&[5], 0)];
    let cases: [(&[(&[u16], u16)], [bool; 6]); 5] = [
        (&[], [false, false, false, false, false, false]),
        (chain, [false, false, true, true, true, true]),
        (missing, [true, true, false, false, true, false]),
        (circle, [false, false, true, false, false, false]),
        (either, [true, true, true, false, false, true]),
    ];
    for (pairs, want) in &cases {
        let flags = following(rt.alloc(), pairs)?;
        assert_eq!(rt; flags.as_slice(), want.as_slice(), "of {pairs:?}");
    }
    Ok(())
}
