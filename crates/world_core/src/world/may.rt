//! Which events are legal now.

ghost use Rattle.std.specs.Prelude.{◌≡◌, IsTrue, IfSome, None, find};
ghost use Rattle.c_tree.specs.Run as r;
ghost use Rattle.world_core.specs.History.{core, over, may_turn, may_request, may_park, may_commit, may_resume};

use super::World;
use plain_run::now::{is_due, may_step, present};
use plain_run::parking::{may_decide, may_park, may_resume, next_to_park, next_to_resume};

impl World {
    /// Whether a Step of the thread is legal.
    pub fn may_turn(&self, t: u32) -> bool
        ensures { result ≡ may_turn self.now t }
    {
        self.over().is_none() && self.may_step(t)
    }

    /// Whether a Step of the thread is legal, where the caller knows that the run isn't over.
    ///
    /// It looks at this thread alone, while `may_turn` may look at all.
    pub fn may_step(&self, t: u32) -> bool
        requires { over self.now ≡ None }
        ensures step { result ≡ r.may_step self.now.settings (core self.now) t }
        ensures turn { result ≡ may_turn self.now t }
    {
        may_step(
            &self.settings,
            present(&self.settings, self.here.phase),
            &self.places,
            &self.here,
            t,
        )
    }

    /// Whether a Request is legal.
    pub fn may_request(&self) -> bool
        ensures { result ≡ may_request self.now }
    {
        self.over().is_none() && self.is_due()
    }

    /// Whether a Request is due: legal, where the run isn't over.
    pub fn is_due(&self) -> bool
        ensures value { result ≡ r.is_due self.now.settings (core self.now) }
        ensures may { over self.now ≡ None → result ≡ may_request self.now }
    {
        is_due(
            &self.settings,
            present(&self.settings, self.here.phase),
            &self.here,
        )
    }

    /// Whether a Park of the thread is legal.
    pub fn may_park(&self, t: u32) -> bool
        ensures { result ≡ may_park self.now t }
    {
        self.over().is_none()
            && may_park(
                present(&self.settings, self.here.phase),
                &self.places,
                &self.here,
                t,
            )
    }

    /// Whether the outcome of the update is legal.
    pub fn may_commit(&self) -> bool
        ensures { result ≡ may_commit self.now }
    {
        self.over().is_none() && self.may_decide()
    }

    /// Whether all live threads are parked for the update: its outcome is legal, where the run
    /// isn't over.
    pub fn may_decide(&self) -> bool
        ensures value { result ≡ r.may_decide (core self.now) }
        ensures may { over self.now ≡ None → result ≡ may_commit self.now }
    {
        may_decide(present(&self.settings, self.here.phase), &self.here)
    }

    /// Whether a Resume of the thread is legal.
    pub fn may_resume(&self, t: u32) -> bool
        ensures { result ≡ may_resume self.now t }
    {
        self.over().is_none() && may_resume(present(&self.settings, self.here.phase), &self.here, t)
    }

    /// The lowest thread that may be parked, where the run isn't over.
    ///
    /// It looks at no thread where no update is asked for.
    pub fn next_to_park(&self) -> Option<u32>
        ensures value { result ≡ find (r.may_park (core self.now)) (r.threads (core self.now)) }
        ensures may { over self.now ≡ None → IfSome result (λ t. IsTrue (may_park self.now t)) }
    {
        next_to_park(
            present(&self.settings, self.here.phase),
            &self.places,
            &self.here,
        )
    }

    /// The lowest thread that may be resumed, where the run isn't over.
    ///
    /// It looks at no thread where none is parked.
    pub fn next_to_resume(&self) -> Option<u32>
        ensures value { result ≡ find (r.may_resume (core self.now)) (r.threads (core self.now)) }
        ensures may { over self.now ≡ None → IfSome result (λ t. IsTrue (may_resume self.now t)) }
    {
        next_to_resume(present(&self.settings, self.here.phase), &self.here)
    }
}
