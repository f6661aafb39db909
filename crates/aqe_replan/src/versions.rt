//! The current plan of a query, and how stages are made of it.

ghost use Rattle.std.specs.Prelude.{◌≡◌, ◌++◌, [], false, length, IfOk, OnOk, OnErr};
ghost use Rattle.aqe_settings.specs.Values.{values_of};
ghost use Rattle.aqe_physical.specs.Counts.{PartsFit};
ghost use Rattle.aqe_fitting.specs.Fits.{Fits};
ghost use Rattle.aqe_planner.specs.Built.{IsBuilt, LimitsFit, Reaches};
ghost use Rattle.aqe_replan.specs.Seen.{all_standing, seen};
ghost use Rattle.aqe_replan.specs.Versions as spec;
ghost use Rattle.aqe_replan.specs.Versions.{ready_of, results, CanBeMade, IsAfter, taken, noted, plan_after, result_after};

use crate::ready::{is_ready, push_makings};
use crate::replacing::{Newest, replaced};
use crate::{Making, Makings};
use aqe_base::{Listing, Memory, StageId, StageList};
use aqe_logical::Logical;
use aqe_physical::{Estimates, Plan, StageKind, copy, parts};
use aqe_planner::first_plan;
use aqe_settings::Settings;
use std::alloc::Global;

/// What a query is carried out by at a position of its run.
#[derive(Drop)]
pub struct Versions {
    alloc: Global,
    pub(crate) logical: Logical,
    pub(crate) plan: Plan,
    pub(crate) has_result: bool,
}

impl Versions {
    /// Plans a query of which no stage was made.
    pub fn first(
        alloc: Global,
        logical: Logical,
        estimates: &Estimates,
        settings: &Settings,
    ) -> Result<Versions, Memory>
        requires built { IsBuilt logical }
        requires estimates { Reaches (length estimates.now) logical }
        requires limits { LimitsFit logical }
        ensures fits { IfOk result (λ v. Fits v.plan logical estimates.now [] (values_of settings.now)) }
        ensures logical { IfOk result (λ v. v.logical ≡ logical) }
        ensures begun { IfOk result (λ v. v.has_result ≡ false) }
    {
        let plan = first_plan(alloc, &logical, estimates, settings)?;
        Ok(Versions {
            alloc,
            logical,
            plan,
            has_result: false,
        })
    }

    /// The current plan.
    pub fn plan(&self) -> &Plan
        ensures { result.now ≡ self.now.plan }
    {
        &self.plan
    }

    /// The current logical plan.
    pub fn logical(&self) -> &Logical
        ensures { result.now ≡ self.now.logical }
    {
        &self.logical
    }

    /// The stages that can be made where those listed are whole, in the order in which they are made: of exchanges, of the samples
    /// of ranges, or the result.
    #[tactic(auto, using(crate::proofs::Steps::all_found))]
    pub fn ready(&self, alloc: Global, materialised: &StageList) -> Result<Makings, Memory>
        ensures { IfOk result (λ found. found ≡ all_standing [] (ready_of materialised.now self.now)) }
    {
        let mut found = Listing::new(alloc);
        push_makings(&mut found, alloc, &self.plan, &[], materialised)?;
        self.push_result(&mut found, alloc, materialised)?;
        Ok(found)
    }

    /// Appends the result, if no exchange is left, all stages that the plan reads are whole, and it was not made yet.
    fn push_result(
        &self,
        found: &mut Makings,
        alloc: Global,
        whole: &StageList,
    ) -> Result<(), Memory>
        ensures { OnOk result (found.new ≡ found.old ++ all_standing [] (results whole.now self.now)) }
    {
        if is_ready(&self.plan, whole) && !self.has_result {
            let body = copy(alloc, &self.plan)?;
            found.push(Making {
                place: Listing::new(alloc),
                kind: StageKind::Result,
                body,
            })
        } else {
            Ok(())
        }
    }

    /// Makes the stage with its number: the exchange is replaced by its plain read, and a range whose sample was made names it.
    pub fn made(&mut self, making: Making, stage: StageId) -> Result<(), Memory>
        requires stands { CanBeMade self.old.plan (seen making) }
        requires parts { PartsFit self.old.plan }
        ensures plan { OnOk result (self.new.plan ≡ plan_after stage (seen making) self.old.plan) }
        ensures result { OnOk result (self.new.has_result ≡ result_after (seen making) self.old.has_result) }
        ensures logical { self.new.logical ≡ self.old.logical }
        ensures parts { PartsFit self.new.plan }
        ensures as_before { OnErr result (self.new ≡ self.old) }
    {
        self.make(&making, stage)
    }

    /// Makes a stage that the caller keeps.
    #[tactic(auto, using(crate::proofs::Replaced::made_steps))]
    fn make(&mut self, making: &Making, stage: StageId) -> Result<(), Memory>
        requires stands { CanBeMade self.old.plan (seen making.now) }
        requires parts { PartsFit self.old.plan }
        ensures plan { OnOk result (self.new.plan ≡ plan_after stage (seen making.now) self.old.plan) }
        ensures result { OnOk result (self.new.has_result ≡ result_after (seen making.now) self.old.has_result) }
        ensures logical { self.new.logical ≡ self.old.logical }
        ensures parts { PartsFit self.new.plan }
        ensures as_before { OnErr result (self.new ≡ self.old) }
    {
        match self.after(making, stage) {
            Ok(next) => {
                self.take(next);
                Ok(())
            }
            Err(fault) => Err(fault),
        }
    }

    /// The plan after a stage was made, or none where that was the result.
    #[tactic(auto, using(crate::proofs::Replaced::after_steps))]
    fn after(&self, making: &Making, stage: StageId) -> Result<Option<Plan>, Memory>
        requires stands { CanBeMade self.now.plan (seen making.now) }
        requires parts { PartsFit self.now.plan }
        ensures { IfOk result (λ next. IsAfter stage (seen making.now) self.now.plan next) }
    {
        if is_result(&making.kind) {
            Ok(None)
        } else {
            let newest = Newest {
                stage,
                maps: parts(&making.body),
            };
            let plan = replaced(self.alloc, &self.plan, making.place.slice(), newest)?;
            Ok(Some(plan))
        }
    }

    /// Goes on with the next plan, or notes that the result was made.
    fn take(&mut self, next: Option<Plan>)
        ensures plan { self.new.plan ≡ taken next self.old.plan }
        ensures result { self.new.has_result ≡ noted next self.old.has_result }
        ensures logical { self.new.logical ≡ self.old.logical }
    {
        match next {
            Some(plan) => self.plan = plan,
            None => self.has_result = true,
        }
    }
}

/// Whether a stage is a result.
fn is_result(kind: &StageKind) -> bool
    ensures { result ≡ spec.is_result kind.now }
{
    match kind {
        StageKind::Result => true,
        StageKind::Shuffle(_) | StageKind::Broadcast | StageKind::Sample(_) => false,
    }
}
