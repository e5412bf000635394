//! One section of the text after another.

ghost use Rattle.std.specs.Prelude.{◌≡◌, is_ok, IfOk};
ghost use Rattle.std.specs.Option.{option_map};
ghost use Rattle.policy.specs.Reading.{content_from};
ghost use Rattle.plantext.specs.Reading.{content_of, words_at};
ghost use Rattle.zones.specs.Piles.{zone_hall};
ghost use Rattle.checking.specs.Accepting.{accepts, first_accepts, list_accepts, piled_of, policy_accepts, second_accepts};

use cells::cellset::CellSet;
use drawn::outline::Outline;
use listed::listed::Listed;
use listed::shape::Shape;
use plan::Plan;
use planlines::{plan_line, policy_line, zones_line};
use plantext::page::{Heading, Page};
use policy::policy::Policy;
use std::alloc::AllocError;
use telling::faults::tell;
use telling::show::places;
use zones::zones::Zones;

/// The report on a text: where it is printed, the text that was read, and whether pictures of the places are asked for.
#[derive(Clone, Copy)]
struct Report<'a> {
    rt: &'a HostRuntime,
    page: &'a Page,
    map: bool,
}

// What is accepted goes on in another way in each section, so each has its own match on the answer.
impl Report<'_> {
    /// The plan with the zones of section `k` over it, unless they are refused.
    fn piled<P: Plan + Drop>(&self, k: usize, plan: P) -> anyhow::Result<Option<Zones<P>>>
        ensures { IfOk result (λ o. option_map (λ z. zone_hall (P.Plan.hall z.below) z.zones.records.items) o ≡ piled_of (P.Plan.hall plan) (words_at k (content_of self.now.page.now))) }
    {
        let mut pile = Zones::over(self.rt.alloc(), plan).map_err(|_| AllocError)?;
        let words = self.page.words_of(k);
        match pile.read(words) {
            Ok(()) => {
                self.rt.println(zones_line(self.rt.alloc(), &pile)?)?;
                Ok(Some(pile))
            }
            Err(fault) => {
                tell(self.rt, "zones", words, fault)?;
                Ok(None)
            }
        }
    }

    /// The policy of section `k`.
    fn policy(&self, k: usize) -> anyhow::Result<bool>
        ensures { IfOk result (λ b. b ≡ is_ok (content_from (words_at k (content_of self.now.page.now)))) }
    {
        let words = self.page.words_of(k);
        let mut policy = Policy::new(self.rt.alloc())?;
        match policy.read(words) {
            Ok(()) => {
                self.rt.println(policy_line(self.rt.alloc(), &policy)?)?;
                Ok(true)
            }
            Err(fault) => {
                tell(self.rt, "policy", words, fault)?;
                Ok(false)
            }
        }
    }

    /// The places of the plan, and then the policy, if section `k` is one.
    fn finish<P: Plan>(&self, k: usize, plan: &P) -> anyhow::Result<bool>
        ensures { IfOk result (λ b. b ≡ policy_accepts k (content_of self.now.page.now)) }
    {
        places(self.rt, plan, self.map)?;
        match self.page.heading(k) {
            Some(Heading::Policy) => self.policy(k),
            _ => Ok(true),
        }
    }

    /// The second list of zones, if there is one, and what follows.
    fn second_zones<P: Plan + Drop>(&self, plan: P) -> anyhow::Result<bool>
        ensures { IfOk result (λ b. b ≡ second_accepts (P.Plan.hall plan) (content_of self.now.page.now)) }
    {
        if !matches!(self.page.heading(2), Some(Heading::Zones)) {
            return self.finish(2, &plan);
        }
        match self.piled(2, plan)? {
            Some(pile) => self.finish(3, &pile),
            None => Ok(false),
        }
    }

    /// The first list of zones, if there is one, and what follows.
    // apart from the second, since another function goes on over another type of plan
    fn first_zones<P: Plan + Drop>(&self, plan: P) -> anyhow::Result<bool>
        ensures { IfOk result (λ b. b ≡ first_accepts (P.Plan.hall plan) (content_of self.now.page.now)) }
    {
        if !matches!(self.page.heading(1), Some(Heading::Zones)) {
            return self.finish(1, &plan);
        }
        match self.piled(1, plan)? {
            Some(pile) => self.second_zones(pile),
            None => Ok(false),
        }
    }

    /// The plan, and what follows.
    fn listed<S: Shape + Drop>(&self) -> anyhow::Result<bool>
        ensures { IfOk result (λ b. b ≡ list_accepts S.Shape.make (content_of self.now.page.now)) }
    {
        let words = self.page.words_of(0);
        let (plan, answer) = Listed::<S>::from_words(self.rt.alloc(), words)?;
        match answer {
            Ok(()) => {
                self.rt.println(plan_line(self.rt.alloc(), &plan)?)?;
                self.first_zones(plan)
            }
            Err(fault) => {
                tell(self.rt, "plan", words, fault)?;
                Ok(false)
            }
        }
    }
}

/// Checks a text, prints what it finds, and says whether all of it is accepted; `map` asks for pictures of the places.
pub fn check(rt: &HostRuntime, text: &[u8], map: bool) -> anyhow::Result<bool>
    ensures { IfOk result (λ b. b ≡ accepts text.now) }
{
    let mut page = Page::with_room(rt.alloc(), text.len())?;
    // two lines, of which a script reads the first: no one text of a fault
    if let Err(fault) = page.read(text) {
        let line = fault.line;
        let reason = fault.reason;
        println!(rt; "text fault line {line}")?;
        println!(rt; "  {reason}")?;
        return Ok(false);
    }
    let report = Report {
        rt,
        page: &page,
        map,
    };
    match page.heading(0) {
        Some(Heading::Drawn) => report.listed::<Outline>(),
        Some(Heading::Cells) => report.listed::<CellSet>(),
        _ => Ok(false),
    }
}
