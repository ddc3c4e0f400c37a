//! Two callers on two seats that are cut, change hands and are fused; threads that draw on seats of their own.
ghost use Rattle.std.specs.Prelude.{◌≡◌, Some, IfSome, []};
ghost use Rattle.tab_keys.specs.declared.bounds.Bound.TheVariants.{At};
ghost use Rattle.tab_seats.specs.Views.{everything};

use crate::texts::key_text;
use std::alloc::Global;
use std::snapshot::Snapshot;
use std::test::Fail;
use std::thread::{Threads, join};
use tab_keys::{Bound, Key, KeyText, Span};
use tab_seats::{CallerPass, Keyed, Office, RangeSeat};

/// A caller that looks in at a key.
#[derive(Drop)]
struct Visit {
    key: Key,
}

impl Keyed for Visit {
    type Opening = ();

    ghost key = { λ visit. visit.key };
}

fn visit_at(alloc: Global, table: u64) -> Option<Visit> {
    let pk = key_text(alloc, "p")?;
    let rk = key_text(alloc, "r")?;
    Some(Visit {
        key: Key { table, pk, rk },
    })
}

/// A visit on each side of the cut that `halves` makes.
fn two_visits(alloc: Global) -> Option<(Visit, Visit)> {
    let below = visit_at(alloc, 1)?;
    let above = visit_at(alloc, 9)?;
    Some((below, above))
}

/// An office of two callers, in which nothing was drawn.
#[derive(Drop)]
struct ForTwo {
    office: Office<Visit>,
    seat: RangeSeat<Visit>,
    first: CallerPass<Visit>,
    second: CallerPass<Visit>,
}

fn open_for_two(alloc: Global) -> Option<ForTwo>
    ensures seat { IfSome result (λ r. (r.seat.office ≡ r.office.office) × (r.seat.view.span ≡ Some everything)) }
    ensures passes { IfSome result (λ r. (r.first.office ≡ r.office.office) × (r.second.office ≡ r.office.office)) }
{
    let opened = Office::<Visit>::open(alloc, 2, Snapshot::of(&()));
    let Ok((office, seat, mut passes)) = opened else {
        return None;
    };
    let second = passes.pop()?;
    let first = passes.pop()?;
    Some(ForTwo {
        office,
        seat,
        first,
        second,
    })
}

/// A part of the seat, with its span.
#[derive(Drop)]
struct Half {
    seat: RangeSeat<Visit>,
    span: Span,
}

/// One call: the seat heeds the caller, draws and gives a note, which the caller meets. Want of memory would show in the
/// counts.
fn call(half: &mut Half, pass: &mut CallerPass<Visit>, command: &Visit)
    requires office { pass.old.office ≡ half.old.seat.office }
    requires span { half.old.seat.view.span ≡ Some half.old.span }
    ensures seat { half.new.seat.office ≡ half.old.seat.office }
    ensures pass { pass.new.office ≡ pass.old.office }
    ensures covers { half.new.seat.view.span ≡ Some half.new.span }
    ensures span { half.new.span ≡ half.old.span }
{
    if pass.permits() == 0 || !half.span.has(&command.key) {
        return;
    }
    let Ok(slip) = pass.slip() else { return };
    half.seat.heed(slip);
    half.seat.draw(command, 7);
    if let Ok(note) = half.seat.note() {
        pass.meet(note);
    }
}

/// Calls of two callers. Each half has one after the other.
fn visits(
    left: &mut Half,
    right: &mut Half,
    first: &mut CallerPass<Visit>,
    second: &mut CallerPass<Visit>,
    below: &Visit,
    above: &Visit,
)
    requires left { left.old.seat.view.span ≡ Some left.old.span }
    requires right { right.old.seat.view.span ≡ Some right.old.span }
    requires seats { right.old.seat.office ≡ left.old.seat.office }
    requires first { first.old.office ≡ left.old.seat.office }
    requires second { second.old.office ≡ left.old.seat.office }
    ensures left { left.new.seat.view.span ≡ Some left.old.span }
    ensures right { right.new.seat.view.span ≡ Some right.old.span }
    ensures spans { (left.new.span ≡ left.old.span) × (right.new.span ≡ right.old.span) }
    ensures seats { (left.new.seat.office ≡ left.old.seat.office) × (right.new.seat.office ≡ left.old.seat.office) }
    ensures passes { (first.new.office ≡ left.old.seat.office) × (second.new.office ≡ left.old.seat.office) }
{
    call(left, first, below);
    call(right, second, above);
    call(left, second, below);
    call(right, first, above);
    call(right, first, above);
}

fn bound(alloc: Global, table: u64) -> Option<Bound>
    ensures { IfSome result (λ b. b ≡ At table []) }
{
    Some(Bound::At(table, KeyText::new(alloc, "").ok()?))
}

/// The keys from a table on.
fn span_from(alloc: Global, table: u64, hi: Bound) -> Option<Span>
    ensures { IfSome result (λ s. (s.lo ≡ At table []) × (s.hi ≡ hi)) }
{
    let lo = bound(alloc, table)?;
    Span::new(lo, hi)
}

/// The keys below table 5.
fn low(alloc: Global) -> Option<Span>
    ensures { IfSome result (λ s. (s.lo ≡ At 0 []) × (s.hi ≡ At 5 [])) }
{
    let hi = bound(alloc, 5)?;
    span_from(alloc, 0, hi)
}

/// The seat over all keys cut at a table's first bound.
fn halves(alloc: Global, seat: RangeSeat<Visit>) -> Option<(Half, Half)>
    requires { seat.view.span ≡ Some everything }
    ensures office { IfSome result (λ r. (r.0.seat.office ≡ seat.office) × (r.1.seat.office ≡ seat.office)) }
    ensures spans { IfSome result (λ r. (r.0.seat.view.span ≡ Some r.0.span) × (r.1.seat.view.span ≡ Some r.1.span) × (r.0.span.hi ≡ r.1.span.lo)) }
{
    let low = low(alloc)?;
    let high = span_from(alloc, 5, Bound::End)?;
    match seat.cut(low.hi()) {
        Ok((left, right)) => Some((
            Half {
                seat: left,
                span: low,
            },
            Half {
                seat: right,
                span: high,
            },
        )),
        Err(_) => None,
    }
}

/// The two halves as one seat again.
fn whole(left: Half, right: Half) -> RangeSeat<Visit>
    requires office { right.seat.office ≡ left.seat.office }
    requires left { left.seat.view.span ≡ Some left.span }
    requires right { right.seat.view.span ≡ Some right.span }
    requires meet { left.span.hi ≡ right.span.lo }
    ensures { result.office ≡ left.seat.office }
{
    left.seat.fuse(right.seat)
}

/// The count of strokes, and the numbers of calls of the two passes.
fn counts(
    alloc: Global,
    office: Office<Visit>,
    seat: RangeSeat<Visit>,
    first: CallerPass<Visit>,
    second: CallerPass<Visit>,
) -> Option<[u64; 3]>
    requires { (seat.office ≡ office.office) × (first.office ≡ office.office) × (second.office ≡ office.office) }
{
    let (one, other) = (first.calls(), second.calls());
    let seats = vec![in alloc; seat].ok()?;
    let passes = vec![in alloc; first, second].ok()?;
    Some([office.close(seats, passes), one, other])
}

/// A seat that is cut, with two callers who change halves, and fused.
fn cut_and_fused(
    alloc: Global,
    seat: RangeSeat<Visit>,
    first: &mut CallerPass<Visit>,
    second: &mut CallerPass<Visit>,
) -> Option<RangeSeat<Visit>>
    requires span { seat.view.span ≡ Some everything }
    requires first { first.old.office ≡ seat.office }
    requires second { second.old.office ≡ seat.office }
    ensures { IfSome result (λ r. (r.office ≡ seat.office) × (first.new.office ≡ seat.office) × (second.new.office ≡ seat.office)) }
{
    let (below, above) = two_visits(alloc)?;
    let (mut left, mut right) = halves(alloc, seat)?;
    visits(&mut left, &mut right, first, second, &below, &above);
    Some(whole(left, right))
}

/// Two callers. The halves of the seat change hands between their calls.
fn two_seats(alloc: Global, opened: ForTwo) -> Option<[u64; 3]>
    requires seat { (opened.seat.office ≡ opened.office.office) × (opened.seat.view.span ≡ Some everything) }
    requires passes { (opened.first.office ≡ opened.office.office) × (opened.second.office ≡ opened.office.office) }
{
    let ForTwo {
        office,
        seat,
        mut first,
        mut second,
    } = opened;
    let seat = cut_and_fused(alloc, seat, &mut first, &mut second)?;
    counts(alloc, office, seat, first, second)
}

#[test]
fn callers_on_two_seats(rt: HostRuntime) -> Result<(), Fail> {
    let Some(opened) = open_for_two(rt.alloc()) else {
        return Err(Fail::from("an office of two is opened"));
    };
    assert!(rt; two_seats(rt.alloc(), opened) == Some([5, 3, 2]));
    Ok(())
}

/// What one thread has: a half of the seat, and a pass.
#[derive(Drop)]
struct Side {
    half: Half,
    pass: CallerPass<Visit>,
}

fn call_thrice(half: &mut Half, pass: &mut CallerPass<Visit>, command: &Visit)
    requires office { pass.old.office ≡ half.old.seat.office }
    requires span { half.old.seat.view.span ≡ Some half.old.span }
    ensures seat { half.new.seat.office ≡ half.old.seat.office }
    ensures pass { pass.new.office ≡ pass.old.office }
    ensures covers { half.new.seat.view.span ≡ Some half.new.span }
    ensures span { half.new.span ≡ half.old.span }
{
    call(half, pass, command);
    call(half, pass, command);
    call(half, pass, command);
}

/// Three calls with what a thread has, which is handed back.
fn three_calls(side: Side, command: &Visit) -> Side
    requires office { side.pass.office ≡ side.half.seat.office }
    requires covers { side.half.seat.view.span ≡ Some side.half.span }
    ensures offices { (result.half.seat.office ≡ side.half.seat.office) × (result.pass.office ≡ side.half.seat.office) }
    ensures covers { result.half.seat.view.span ≡ Some result.half.span }
    ensures span { result.half.span ≡ side.half.span }
{
    let Side { mut half, mut pass } = side;
    call_thrice(&mut half, &mut pass, command);
    Side { half, pass }
}

/// Two threads, each with a half and a pass of its own.
fn side_by_side<R: Threads + Sync>(
    rt: &R,
    left: Side,
    right: Side,
    below: &Visit,
    above: &Visit,
) -> (Side, Side)
    requires offices { (left.pass.office ≡ left.half.seat.office) × (right.pass.office ≡ right.half.seat.office) }
    requires covers { (left.half.seat.view.span ≡ Some left.half.span) × (right.half.seat.view.span ≡ Some right.half.span) }
    ensures left { (result.0.half.seat.office ≡ left.half.seat.office) × (result.0.pass.office ≡ left.half.seat.office) }
    ensures right { (result.1.half.seat.office ≡ right.half.seat.office) × (result.1.pass.office ≡ right.half.seat.office) }
    ensures covers { (result.0.half.seat.view.span ≡ Some result.0.half.span) × (result.1.half.seat.view.span ≡ Some result.1.half.span) }
    ensures spans { (result.0.half.span ≡ left.half.span) × (result.1.half.span ≡ right.half.span) }
{
    join(
        rt,
        move || -> Side
            requires { (left.pass.office ≡ left.half.seat.office) × (left.half.seat.view.span ≡ Some left.half.span) }
            ensures offices { (result.half.seat.office ≡ left.half.seat.office) × (result.pass.office ≡ left.half.seat.office) }
            ensures covers { result.half.seat.view.span ≡ Some result.half.span }
            ensures span { result.half.span ≡ left.half.span }
        { three_calls(left, below) },
        move || -> Side
            requires { (right.pass.office ≡ right.half.seat.office) × (right.half.seat.view.span ≡ Some right.half.span) }
            ensures offices { (result.half.seat.office ≡ right.half.seat.office) × (result.pass.office ≡ right.half.seat.office) }
            ensures covers { result.half.seat.view.span ≡ Some result.half.span }
            ensures span { result.half.span ≡ right.half.span }
        { three_calls(right, above) },
    )
}

/// The seat cut, with a thread on each half, and fused when both have ended.
fn cut_for_threads<R: Threads + Sync>(
    rt: &R,
    alloc: Global,
    seat: RangeSeat<Visit>,
    first: CallerPass<Visit>,
    second: CallerPass<Visit>,
) -> Option<(RangeSeat<Visit>, CallerPass<Visit>, CallerPass<Visit>)>
    requires span { seat.view.span ≡ Some everything }
    requires passes { (first.office ≡ seat.office) × (second.office ≡ seat.office) }
    ensures { IfSome result (λ r. (r.0.office ≡ seat.office) × (r.1.office ≡ seat.office) × (r.2.office ≡ seat.office)) }
{
    let (below, above) = two_visits(alloc)?;
    let (low, high) = halves(alloc, seat)?;
    let (left, right) = side_by_side(
        rt,
        Side {
            half: low,
            pass: first,
        },
        Side {
            half: high,
            pass: second,
        },
        &below,
        &above,
    );
    Some((whole(left.half, right.half), left.pass, right.pass))
}

/// Two callers in two threads.
fn two_threads<R: Threads + Sync>(rt: &R, alloc: Global, opened: ForTwo) -> Option<[u64; 3]>
    requires seat { (opened.seat.office ≡ opened.office.office) × (opened.seat.view.span ≡ Some everything) }
    requires passes { (opened.first.office ≡ opened.office.office) × (opened.second.office ≡ opened.office.office) }
{
    let ForTwo {
        office,
        seat,
        first,
        second,
    } = opened;
    let (seat, first, second) = cut_for_threads(rt, alloc, seat, first, second)?;
    counts(alloc, office, seat, first, second)
}

#[test]
fn threads_on_seats_of_their_own(rt: HostRuntime) -> Result<(), Fail> {
    let Some(opened) = open_for_two(rt.alloc()) else {
        return Err(Fail::from("an office of two is opened"));
    };
    assert!(rt; two_threads(&rt, rt.alloc(), opened) == Some([6, 3, 3]));
    Ok(())
}
