//! Taking the line that comes next.
ghost use Rattle.std.specs.Prelude.{◌≡◌, ◌≤◌, ◌<◌, ◌+◌, ◌^◌, ◌-◌, IfOk, OnOk};
ghost use Rattle.expr_table.specs.Instance.{IsFitting};
ghost use Rattle.expr_table.specs.declared.instance.Instance.{Instance as AnyInstance};
ghost use Rattle.cert_check.specs.Sound.{IsSound, Judged, KeepsSound, stage_of};
ghost use Rattle.cert_check.specs.Stages.{judge, on_counts, on_cuts, on_end, on_hull, on_run, on_title};

use crate::cuts::cuts_fault;
use crate::due::Due;
use crate::header::{same_model, same_notion};
use crate::hull::{hull_set, is_hull_for};
use crate::state::{State, stack_up};
use certificate::{Header, Line, Why};
use circuit_types::Model;
use expr_table::{Instance, Notion};
use family_split::children;
use sequences::NoMemory;
use std::alloc::Global;

impl State {
    /// Takes a line, where it is right. Else answers what is wrong with it.
    pub fn take(
        &mut self,
        alloc: Global,
        instance: &Instance,
        header: &Header,
        line: Line,
    ) -> Result<Option<Why>, NoMemory>
        requires fitting { IsFitting instance.now }
        requires sound { IsSound instance.now self.old }
        requires room { self.old.closed < 2 ^ 64 - 1 }
        ensures sound { IfOk result (KeepsSound instance.now self.new) }
        ensures judged { IfOk result (Judged (judge instance.now header.now (stage_of self.old) line) (stage_of self.new)) }
        ensures counted { OnOk result (self.new.closed ≤ self.old.closed + 1) }
    {
        match line {
            Line::Title(version) => Ok(self.take_title(version)),
            Line::Run {
                notion,
                order,
                model,
            } => Ok(self.take_run(header, notion, order, model)),
            Line::Counts {
                probes,
                rows,
                tuples,
            } => Ok(self.take_counts(header, probes, rows, tuples)),
            Line::Hull(members) => self.take_hull(alloc, instance, members.as_slice()),
            Line::Cuts(rows) => self.take_cuts(alloc, instance, rows.as_slice()),
            Line::End(number) => Ok(self.take_end(number)),
        }
    }

    fn take_title(&mut self, version: u32) -> Option<Why>
        ensures judged { Judged (on_title (stage_of self.old) self.old.due version) (stage_of self.new) result }
        ensures sound { (x : AnyInstance) → IsSound x self.old → IsSound x self.new }
        ensures counted { self.new.closed ≡ self.old.closed }
    {
        let Due::Title = self.due else {
            return Some(Why::Form);
        };
        if version != 1 {
            return Some(Why::Header);
        }
        self.due = Due::Run;
        None
    }

    fn take_run(&mut self, header: &Header, notion: Notion, order: u32, model: Model) -> Option<Why>
        ensures judged { Judged (on_run header.now (stage_of self.old) self.old.due notion order model)
            (stage_of self.new) result }
        ensures sound { (x : AnyInstance) → IsSound x self.old → IsSound x self.new }
        ensures counted { self.new.closed ≡ self.old.closed }
    {
        let Due::Run = self.due else {
            return Some(Why::Form);
        };
        if !(same_notion(notion, header.notion)
            && (order == header.order && same_model(model, header.model)))
        {
            return Some(Why::Header);
        }
        self.due = Due::Counts;
        None
    }

    fn take_counts(&mut self, header: &Header, probes: u32, rows: u32, tuples: u64) -> Option<Why>
        ensures judged { Judged (on_counts header.now (stage_of self.old) self.old.due probes rows tuples)
            (stage_of self.new) result }
        ensures sound { (x : AnyInstance) → IsSound x self.old → IsSound x self.new }
        ensures counted { self.new.closed ≡ self.old.closed }
    {
        let Due::Counts = self.due else {
            return Some(Why::Form);
        };
        if !(probes == header.probes && (rows == header.rows && tuples == header.tuples)) {
            return Some(Why::Header);
        }
        self.due = Due::Hull;
        None
    }

    /// A hull is for the family on top.
    #[tactic(auto, using(crate::proofs::TakenLines::hull_sound))]
    fn take_hull(
        &mut self,
        alloc: Global,
        instance: &Instance,
        hull: &[u32],
    ) -> Result<Option<Why>, NoMemory>
        requires fitting { IsFitting instance.now }
        requires sound { IsSound instance.now self.old }
        ensures judged { IfOk result (Judged (on_hull instance.now (stage_of self.old) self.old.due hull.now)
            (stage_of self.new)) }
        ensures sound { IfOk result (KeepsSound instance.now self.new) }
        ensures counted { self.new.closed ≡ self.old.closed }
    {
        let Due::Hull = self.due else {
            return Ok(Some(Why::Form));
        };
        let Some(family) = self.waiting.pop() else {
            return Ok(Some(Why::Extra));
        };
        if !is_hull_for(&family, hull) {
            return Ok(Some(Why::Hull));
        }
        let count = instance.probes.as_slice().len() as u32;
        let hull = hull_set(alloc, count, hull)?;
        self.due = Due::Cuts { family, hull };
        Ok(None)
    }

    /// Cuts close the family whose hull came before, and its children wait in its place.
    #[tactic(auto, using(crate::proofs::TakenLines::cuts_sound, crate::proofs::TakenLines::kids_fit))]
    fn take_cuts(
        &mut self,
        alloc: Global,
        instance: &Instance,
        cuts: &[u32],
    ) -> Result<Option<Why>, NoMemory>
        requires fitting { IsFitting instance.now }
        requires sound { IsSound instance.now self.old }
        requires room { self.old.closed < 2 ^ 64 - 1 }
        ensures judged { IfOk result (Judged (on_cuts instance.now (stage_of self.old) self.old.due cuts.now)
            (stage_of self.new)) }
        ensures sound { IfOk result (KeepsSound instance.now self.new) }
        ensures counted { self.new.closed ≤ self.old.closed + 1 }
    {
        let Due::Cuts { family, hull } = &self.due else {
            return Ok(Some(Why::Form));
        };
        if let Some(why) = cuts_fault(alloc, instance, &mut self.live, hull, family.bound, cuts)? {
            return Ok(Some(why));
        }
        let children = children(alloc, family, hull)?;
        stack_up(&mut self.waiting, children)?;
        self.due = Due::Hull;
        self.closed += 1;
        Ok(None)
    }

    /// At the last line no family waits.
    fn take_end(&mut self, number: u64) -> Option<Why>
        ensures judged { Judged (on_end (stage_of self.old) self.old.due number) (stage_of self.new) result }
        ensures sound { (x : AnyInstance) → IsSound x self.old → IsSound x self.new }
        ensures counted { self.new.closed ≡ self.old.closed }
    {
        let Due::Hull = self.due else {
            return Some(Why::Form);
        };
        if !self.waiting.is_empty() {
            return Some(Why::Open);
        }
        if number != self.closed {
            return Some(Why::Count);
        }
        self.due = Due::Nothing;
        None
    }
}
