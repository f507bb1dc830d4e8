//! Searches of small instances: alone, by turns of several workers, and by events that numbers draw.
ghost use Rattle.std.specs.Prelude.{◌≡◌, ◌<◌, ◌≤◌, [], ◌∷◌, All, IfOk, length};
ghost use Rattle.expr_table.specs.Instance.{IsFitting, rows_of};
ghost use Rattle.frontier_core.specs.Answer.{IsSearchOf};
ghost use Rattle.frontier_core.specs.Core.{IsCoreOf};
ghost use Rattle.probe_family.specs.Families.{IsFamily};

use bit_rows::BitRow;
use expr_table::{ExprTable, Instance, Notion, ProbeRoots, Row};
use frontier_core::{Core, Event, NoMemory, Outcome, Stepped, work};
use probe_family::{Family, roots};
use sequences::Sequence;
use sim_rules::Scratch;
use std::alloc::Global;
use std::fmt::Write;
use std::marker::Model;
use std::process::Abort;
use std::test::Fail;
use tuple_rank::Binomials;
use worker_pool::{Verdict, verify_in_turns, verify_one};

/// The rows that the probes of the refresh see: x0, x + x0, r and the two outputs.
const REFRESH: &[u32] = &[3, 5, 4, 6, 7];

/// The same rows with r first. Of the pairs, that of x0 and x + x0 is the first that is not proved; it comes late in its
/// family, and of the tuples of three probes two families fail.
const LATE: &[u32] = &[4, 3, 6, 5, 7];

/// The rows of x0, r and x + x0 + r, three shares of x.
const SHARES: &[u32] = &[3, 4, 7];

/// What a search of the refresh by single probes tells.
const TREE: &str = " 1 of 0 1 2 3 4 under 0 2 3; 1 of 1 4 under 1 4;";

/// A probe of one row.
fn probe_of(alloc: Global, row: Row) -> Result<ProbeRoots, NoMemory>
    ensures { IfOk result (λ probe. probe.rows ≡ row ∷ []) }
{
    let rows = Sequence::from_vec(vec![in alloc; row]?);
    Ok(ProbeRoots {
        rows,
        output: false,
    })
}

/// A probe for each row.
fn probes_of(
    rt: &impl Abort,
    alloc: Global,
    table: &ExprTable,
    rows: &[u32],
) -> Result<Vec<ProbeRoots>, Fail>
    ensures long { IfOk result (λ probes. length probes.items ≡ length rows.now) }
    ensures within { IfOk result (λ probes.
        All (λ probe. All (λ row. row < length table.now.nodes) (rows_of probe)) probes.items) }
{
    let mut probes = Vec::new(alloc);
    for row in rows {
        assert!(rt; *row < table.rows());
        let probe = probe_of(alloc, Row(*row))?;
        probes.push(probe)?;
    }
    Ok(probes)
}

/// The two-share refresh of a secret x, as (x0 + r, x + x0 + r), with a probe for each of some rows.
fn refresh(rt: &impl Abort, alloc: Global, notion: Notion, seen: &[u32]) -> Result<Instance, Fail>
    ensures { IfOk result (λ instance. IsFitting instance) }
{
    let mut table = ExprTable::make(alloc, 1, 2)?;
    for (a, b, row) in [(2, 3, 5), (3, 4, 6), (5, 4, 7)] {
        assert!(rt; a < table.rows() && b < table.rows());
        assert_eq!(rt; table.xor(Row(a), Row(b))?, Row(row));
    }
    assert!(rt; seen.len() < 10);
    let probes = probes_of(rt, alloc, &table, seen)?;
    Ok(Instance {
        notion,
        table,
        probes: Sequence::from_vec(probes),
        groups: Sequence::from_vec(vec![in alloc; Some(0)]?),
    })
}

/// Adds the members of a set.
fn write_set(text: &mut String, set: &BitRow) -> Result<(), Fail> {
    for p in 0..set.len() {
        if set.get(p) {
            write!(text, " {p}")?;
        }
    }
    Ok(())
}

/// Adds what a family takes, and of what.
fn write_family(text: &mut String, family: &Family) -> Result<(), Fail> {
    for part in family.parts.as_slice() {
        let take = part.take;
        write!(text, " {take} of")?;
        write_set(text, &part.set)?;
    }
    Ok(())
}

/// The tuple that is not proved, or the closed families in order, each with its hull.
fn text_of(alloc: Global, verdict: &Verdict) -> Result<String, Fail> {
    let mut text = String::new(alloc);
    match verdict {
        Verdict::Secure(closed) => {
            for one in closed {
                write_family(&mut text, &one.family)?;
                text.push_str(" under")?;
                write_set(&mut text, &one.hull)?;
                text.push_str(";")?;
            }
        }
        Verdict::Unproved(tuple) => {
            text.push_str("unproved")?;
            for p in tuple.as_slice() {
                write!(text, " {p}")?;
            }
        }
    }
    Ok(text)
}

/// Compares a verdict with the one that is wanted.
fn tells(rt: &impl Abort, alloc: Global, verdict: &Verdict, want: &str) -> Result<(), Fail> {
    let text = text_of(alloc, verdict)?;
    assert_eq!(rt; text.as_str(), want);
    Ok(())
}

/// Adds how the work on a family comes out.
fn write_outcome(text: &mut String, outcome: &Outcome) -> Result<(), Fail> {
    match outcome {
        Outcome::Proved { hull, children } => {
            text.push_str("proved")?;
            write_set(text, hull)?;
            for child in children {
                text.push_str(",")?;
                write_family(text, child)?;
            }
        }
        Outcome::Failed { rank, .. } => write!(text, "failed {rank}")?,
        Outcome::Beyond { best } => write!(text, "beyond {best}")?,
    }
    text.push_str(";")?;
    Ok(())
}

/// The core of a search of which the roots wait and nothing is ended.
fn resumed(alloc: Global, instance: &Instance, order: u32, workers: u32) -> Result<Core, NoMemory>
    requires fitting { IsFitting instance.now }
    requires few { order ≤ 8 }
    ensures { IfOk result (IsCoreOf instance.now order) }
{
    let waiting = roots(alloc, instance, order)?;
    Core::resume(alloc, instance, order, workers, waiting, Vec::new(alloc))
}

/// How the work on a family comes out. An equal family serves for it.
fn work_on(
    rt: &impl Abort,
    alloc: Global,
    instance: &Instance,
    counts: &Binomials,
    family: &Family,
    best: Option<u64>,
) -> Result<Outcome, Fail>
    requires fitting { IsFitting instance.now }
    requires family { IsFamily (length instance.now.probes) family.now }
    requires counted { counts.now.n ≡ length instance.now.probes }
    requires size { family.now.size ≤ counts.now.t }
{
    let mut scratch = Scratch::make(alloc, instance)?;
    let copied = family.copy()?;
    assert!(rt; copied.same(family));
    let outcome = work(alloc, instance, counts, &mut scratch, &copied, best)?;
    Ok(outcome)
}

/// A search by several workers, as far as events have brought it. Contracts see nothing of it.
#[derive(Drop)]
struct Course {
    order: u32,
    instance: Instance,
    counts: Binomials,
    scratch: Scratch,
    core: Core,
}

impl Model for Course {
    ghost Value = { Unit {0} };

    ghost view = { λ c. tt };

    ghost invariant = { λ c. IsSearchOf c.instance c.counts.t c.core
        × (c.counts ≡ record { n = length c.instance.probes; t = c.order }) × (1 ≤ c.order)
        × (c.scratch ≡ length c.instance.table.nodes) };
}

impl Course {
    /// The beginning of a search of the tuples of at most `order` probes.
    fn begin(
        rt: &impl Abort,
        alloc: Global,
        notion: Notion,
        seen: &[u32],
        order: u32,
        workers: u32,
    ) -> Result<Course, Fail> {
        assert!(rt; 1 <= order && order <= 8);
        let instance = refresh(rt, alloc, notion, seen)?;
        let counts = Binomials::make(alloc, instance.probes.as_slice().len() as u32, order)?;
        let scratch = Scratch::of_rows(alloc, instance.table.rows())?;
        let core = resumed(alloc, &instance, order, workers)?;
        Ok(Course {
            order,
            instance,
            counts,
            scratch,
            core,
        })
    }

    /// The verdict of a search alone.
    fn alone(&self, alloc: Global) -> Result<Verdict, NoMemory> {
        verify_one(alloc, &self.instance, &self.counts, self.order)
    }

    /// The verdict of a schedule.
    fn by_turns(&self, alloc: Global, workers: u32, seed: u64) -> Result<Verdict, NoMemory>
        requires { 1 ≤ workers }
    {
        verify_in_turns(
            alloc,
            &self.instance,
            &self.counts,
            self.order,
            workers,
            seed,
        )
    }

    /// How the work on each root comes out.
    fn work_on_roots(
        &self,
        rt: &impl Abort,
        alloc: Global,
        best: Option<u64>,
    ) -> Result<String, Fail> {
        let mut text = String::new(alloc);
        for root in &roots(alloc, &self.instance, self.order)? {
            assert!(rt; root.size <= self.order);
            let outcome = work_on(rt, alloc, &self.instance, &self.counts, root, best)?;
            write_outcome(&mut text, &outcome)?;
        }
        Ok(text)
    }

    /// Does an event, where it is allowed.
    fn step(&mut self, event: Event) -> Result<Stepped, NoMemory> {
        self.core
            .step(&self.instance, &self.counts, &mut self.scratch, event)
    }

    /// Whether nothing is open or held.
    fn idle(&self) -> bool {
        self.core.idle()
    }

    /// The verdict, where the search has come to its end.
    fn verdict(self, rt: &impl Abort) -> Result<Verdict, Fail> {
        let Course { core, .. } = self;
        assert!(rt; core.idle());
        Ok(core.verdict()?)
    }
}

/// A kind of event.
#[derive(Clone, Copy)]
enum Kind {
    Take,
    Proved,
    Failed,
    Beyond,
}

/// An event of a worker. The number is the place of what is taken, or the rank that is known.
fn event_of(kind: Kind, worker: u32, number: u32) -> Event {
    match kind {
        Kind::Take => Event::Take {
            worker,
            place: number,
        },
        Kind::Proved => Event::Proved { worker },
        Kind::Failed => Event::Failed { worker },
        Kind::Beyond => Event::Beyond {
            worker,
            best: u64::from(number),
        },
    }
}

/// Places, and ranks of tuples that are not proved.
const NUMBERS: [u32; 9] = [0, 1, 2, 5, 10, 15, 16, 23, 25];

/// The event that a number draws, of one of three workers or of a fourth that is not there.
fn drawn_event(drawn: u64) -> Event {
    let kind = match drawn % 4 {
        0 => Kind::Take,
        1 => Kind::Proved,
        2 => Kind::Failed,
        _ => Kind::Beyond,
    };
    let worker = (drawn / 4 % 4) as u32;
    let number = NUMBERS[(drawn / 16 % 9) as usize];
    event_of(kind, worker, number)
}

/// Lets events happen that numbers draw, be they allowed or not, until nothing is open or held.
fn happen(alloc: Global, course: &mut Course, seed: u64) -> Result<(), NoMemory> {
    let mut state = seed;
    for _draw in 0..10_000 {
        if course.idle() {
            return Ok(());
        }
        state = state
            .wrapping_mul(6364136223846793005)
            .wrapping_add(1442695040888963407);
        let _ = course.step(drawn_event(state >> 33))?;
    }
    Ok(())
}

/// Compares the verdict after the events that numbers draw.
fn tell_after(
    rt: &impl Abort,
    alloc: Global,
    mut course: Course,
    seed: u64,
    want: &str,
) -> Result<(), Fail> {
    happen(alloc, &mut course, seed)?;
    let verdict = course.verdict(rt)?;
    tells(rt, alloc, &verdict, want)
}

/// Compares the verdicts after a hundred lists of events that numbers draw.
fn tell_by_chance(
    rt: &impl Abort,
    alloc: Global,
    notion: Notion,
    seen: &[u32],
    order: u32,
    want: &str,
) -> Result<(), Fail> {
    for seed in 0..100 {
        let course = Course::begin(rt, alloc, notion, seen, order, 3)?;
        tell_after(rt, alloc, course, seed, want)?;
    }
    Ok(())
}

/// Compares the verdicts of ten schedules of so many workers.
fn tell_by_turns(
    rt: &impl Abort,
    alloc: Global,
    course: &Course,
    workers: u32,
    want: &str,
) -> Result<(), Fail>
    requires { 1 ≤ workers }
{
    for seed in 0..10 {
        let verdict = course.by_turns(alloc, workers, seed)?;
        tells(rt, alloc, &verdict, want)?;
    }
    Ok(())
}

/// Compares the verdicts of a search alone and of schedules of one, two and 64 workers.
fn tell_alone_and_by_turns(
    rt: &impl Abort,
    alloc: Global,
    course: &Course,
    want: &str,
) -> Result<(), Fail> {
    let verdict = course.alone(alloc)?;
    tells(rt, alloc, &verdict, want)?;
    tell_by_turns(rt, alloc, course, 1, want)?;
    tell_by_turns(rt, alloc, course, 2, want)?;
    tell_by_turns(rt, alloc, course, 64, want)
}

/// Compares the verdicts of each way to search with the one that is wanted.
fn all_tell(
    rt: &impl Abort,
    alloc: Global,
    notion: Notion,
    seen: &[u32],
    order: u32,
    want: &str,
) -> Result<(), Fail> {
    let course = Course::begin(rt, alloc, notion, seen, order, 1)?;
    tell_alone_and_by_turns(rt, alloc, &course, want)?;
    tell_by_chance(rt, alloc, notion, seen, order, want)
}

/// Notions, the rows that probes see, orders and verdicts.
const CASES: [(Notion, &[u32], u32, &str); 6] = [
    (Notion::Probing, REFRESH, 1, TREE),
    (Notion::Probing, REFRESH, 2, "unproved 0 1"),
    (Notion::Probing, REFRESH, 4, "unproved 0 1"),
    (Notion::Probing, LATE, 3, "unproved 1 3"),
    (
        Notion::Probing,
        SHARES,
        2,
        " 1 of 0 1 2 under 0 1; 1 of 2 under 2; 2 of 0 1 2 under 0 1; 1 of 0 1 1 of 2 under 0 2; 1 of 1 1 of 2 under 1 2;",
    ),
    (
        Notion::Ni,
        REFRESH,
        3,
        " 1 of 0 1 2 3 4 under 0 1 2 3 4; 2 of 0 1 2 3 4 under 0 1 2 3 4; 3 of 0 1 2 3 4 under 0 1 2 3 4;",
    ),
];

#[test]
fn one_verdict_whatever_happens(rt: HostRuntime) -> Result<(), Fail> {
    let alloc = rt.alloc();
    for (notion, seen, order, want) in CASES {
        all_tell(&rt, alloc, notion, seen, order, want)?;
    }
    Ok(())
}

/// Compares how the work on the roots of a search comes out with what is wanted.
fn works(
    rt: &impl Abort,
    alloc: Global,
    course: &Course,
    best: Option<u64>,
    want: &str,
) -> Result<(), Fail> {
    let text = course.work_on_roots(rt, alloc, best)?;
    assert_eq!(rt; text.as_str(), want);
    Ok(())
}

#[test]
fn works_on_roots(rt: HostRuntime) -> Result<(), Fail> {
    let alloc = rt.alloc();
    let course = Course::begin(&rt, alloc, Notion::Probing, REFRESH, 2, 1)?;
    let cases = [
        (None, "proved 0 2 3, 1 of 1 4;failed 5;"),
        (Some(0), "beyond 0;beyond 0;"),
        (Some(5), "proved 0 2 3, 1 of 1 4;beyond 5;"),
        (Some(6), "proved 0 2 3, 1 of 1 4;failed 5;"),
    ];
    for (best, want) in cases {
        works(&rt, alloc, &course, best, want)?;
    }
    Ok(())
}

/// What `event_of` takes, and the answer to that event.
type Answered = (Kind, u32, u32, Stepped);

/// Two workers search single probes: the first takes the root and proves it, and the second the child.
const SINGLE: &[Answered] = &[
    (Kind::Take, 0, 0, Stepped::Done),
    (Kind::Take, 1, 0, Stepped::NotAllowed),
    (Kind::Failed, 0, 0, Stepped::NotAllowed),
    (Kind::Proved, 0, 0, Stepped::Done),
    (Kind::Take, 1, 0, Stepped::Done),
    (Kind::Proved, 1, 0, Stepped::Done),
];

/// Two workers search tuples of at most three probes. Where an event is not allowed, the next ones are answered as if it
/// had not been.
const TRIPLES: &[Answered] = &[
    // there is no third worker, and nobody holds a family yet
    (Kind::Take, 2, 0, Stepped::NotAllowed),
    (Kind::Proved, 0, 0, Stepped::NotAllowed),
    (Kind::Failed, 0, 0, Stepped::NotAllowed),
    (Kind::Beyond, 0, 5, Stepped::NotAllowed),
    // the pairs fail; the open families close up
    (Kind::Take, 0, 3, Stepped::NotAllowed),
    (Kind::Take, 0, 1, Stepped::Done),
    (Kind::Take, 0, 0, Stepped::NotAllowed),
    (Kind::Take, 1, 2, Stepped::NotAllowed),
    (Kind::Proved, 0, 0, Stepped::NotAllowed),
    (Kind::Beyond, 0, 5, Stepped::NotAllowed),
    (Kind::Failed, 0, 0, Stepped::Done),
    // the triples come after the pairs
    (Kind::Take, 0, 1, Stepped::Done),
    (Kind::Beyond, 0, 4, Stepped::NotAllowed),
    (Kind::Beyond, 0, 5, Stepped::Done),
    // the single probes come before them
    (Kind::Take, 1, 0, Stepped::Done),
    (Kind::Beyond, 1, 5, Stepped::NotAllowed),
    (Kind::Failed, 1, 0, Stepped::NotAllowed),
    (Kind::Proved, 1, 0, Stepped::Done),
    (Kind::Take, 0, 0, Stepped::Done),
    (Kind::Proved, 0, 0, Stepped::Done),
];

/// Does events, and compares the answers with those that are wanted.
fn do_all(
    rt: &impl Abort,
    alloc: Global,
    course: &mut Course,
    events: &[Answered],
) -> Result<(), Fail> {
    for (kind, worker, number, want) in events {
        let answer = course.step(event_of(*kind, *worker, *number))?;
        assert_eq!(rt; answer, *want, "{worker} {number}");
    }
    Ok(())
}

/// Does events from the beginning of a search of the refresh by two workers, and compares the answers and the verdict
/// with those that are wanted.
fn does(
    rt: &impl Abort,
    alloc: Global,
    order: u32,
    events: &[Answered],
    want: &str,
) -> Result<(), Fail> {
    let mut course = Course::begin(rt, alloc, Notion::Probing, REFRESH, order, 2)?;
    do_all(rt, alloc, &mut course, events)?;
    let verdict = course.verdict(rt)?;
    tells(rt, alloc, &verdict, want)
}

#[test]
fn does_what_is_allowed(rt: HostRuntime) -> Result<(), Fail> {
    let alloc = rt.alloc();
    does(&rt, alloc, 1, SINGLE, TREE)?;
    does(&rt, alloc, 3, TRIPLES, "unproved 0 1")
}
