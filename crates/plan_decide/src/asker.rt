//! Questions that are put to a search, with its choices counted.

ghost use Rattle.std.specs.Prelude.{◌≡◌, IfOk, length};
ghost use Rattle.shop_base.specs.Plan.{jobs};
ghost use Rattle.plan_limits.specs.Answered.{OnAnsweredNever};
ghost use Rattle.plan_decide.specs.Asking.{IsImpossible, NoPlanKeeps};
ghost use Rattle.plan_decide.specs.Settings.{case_in};

use crate::asked::{Asked, limits_for};
use crate::decided::Within;
use crate::setting::Setting;
use arc_choice::{Choose, Question, Side, State};
use plan_limits::{LimitsAnswer, ask};
use shop_base::{Moment, Planned};
use std::alloc::{AllocError, Global};

/// A watcher that gets how far the searches have come. It changes nothing in them.
pub trait Watch {
    /// Called before each choice, with how many the search made before it and how many it may make, and once a plan was
    /// found, with what is known of the objective.
    fn choice(&mut self, choices: u64, limit: u64, found: Option<Within>);
}

/// The most choices of a search for a plan that keeps the promises to two jobs, or to one, even where more are allowed.
pub const PAIR_CHOICES: u64 = 1_000;

/// A chooser whose choices are counted in each search, and reported to a watch.
#[derive(Drop)]
pub(crate) struct Asker<'a, C, W> {
    chooser: &'a mut C,
    watch: &'a mut W,
    /// The most choices of a search.
    choices: u64,
    /// The most choices of the present search.
    limit: u64,
    /// How many choices it has made so far.
    made: u64,
    /// What is known of the objective.
    found: Option<Within>,
}

impl<C: Choose, W: Watch> Asker<'_, C, W> {
    /// An asker whose searches make at most so many choices.
    pub(crate) fn new<'a>(chooser: &'a mut C, watch: &'a mut W, choices: u64) -> Asker<'a, C, W> {
        Asker {
            chooser,
            watch,
            choices,
            limit: choices,
            made: 0,
            found: None,
        }
    }

    /// From now on this is known of the objective.
    pub(crate) fn report(&mut self, found: Within) {
        self.found = Some(found);
    }

    /// How many choices the last search made: none, where its question is too large.
    pub(crate) fn last_choices(&self) -> u64 {
        self.made
    }

    /// Whether any plan keeps what is asked for.
    pub(crate) fn ask<P: Planned>(
        &mut self,
        alloc: Global,
        setting: &Setting<'_, P>,
        asked: Asked,
    ) -> Result<LimitsAnswer, AllocError>
        ensures { IfOk result (OnAnsweredNever (IsImpossible (case_in setting.now) asked)) }
    {
        let limits = limits_for(alloc, setting, asked)?;
        self.ask_limits(alloc, setting, &limits)
    }

    /// Whether any plan keeps these limits.
    pub(crate) fn ask_limits<P: Planned>(
        &mut self,
        alloc: Global,
        setting: &Setting<'_, P>,
        limits: &[Option<Moment>],
    ) -> Result<LimitsAnswer, AllocError>
        requires { length limits.now ≡ jobs setting.now.plan }
        ensures { IfOk result (OnAnsweredNever (NoPlanKeeps (case_in setting.now) limits.now)) }
    {
        self.search(alloc, setting, limits, self.choices)
    }

    /// The same by few choices.
    pub(crate) fn ask_few<P: Planned>(
        &mut self,
        alloc: Global,
        setting: &Setting<'_, P>,
        limits: &[Option<Moment>],
    ) -> Result<LimitsAnswer, AllocError>
        requires { length limits.now ≡ jobs setting.now.plan }
        ensures { IfOk result (OnAnsweredNever (NoPlanKeeps (case_in setting.now) limits.now)) }
    {
        self.search(alloc, setting, limits, self.choices.min(PAIR_CHOICES))
    }

    /// The same by at most so many choices.
    fn search<P: Planned>(
        &mut self,
        alloc: Global,
        setting: &Setting<'_, P>,
        limits: &[Option<Moment>],
        choices: u64,
    ) -> Result<LimitsAnswer, AllocError>
        requires { length limits.now ≡ jobs setting.now.plan }
        ensures { IfOk result (OnAnsweredNever (NoPlanKeeps (case_in setting.now) limits.now)) }
    {
        self.limit = choices;
        self.made = 0;
        let present = setting.present();
        ask(alloc, setting.cell(), present, limits, self, choices)
    }
}

impl<C: Choose, W: Watch> Choose for Asker<'_, C, W> {
    fn begin(&mut self, alloc: Global, question: &Question) -> Result<(), AllocError> {
        self.chooser.begin(alloc, question)
    }

    fn choose(&mut self, question: &Question, state: &State) -> Option<Side> {
        self.watch.choice(self.made, self.limit, self.found);
        self.made = self.made.saturating_add(1);
        self.chooser.choose(question, state)
    }

    fn clashed(&mut self, pair: usize, at: Option<usize>) {
        self.chooser.clashed(pair, at);
    }
}
