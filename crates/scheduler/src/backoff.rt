//! Workers who back off from a lock that others hold often.

ghost use Rattle.std.specs.Prelude.{◌≡◌, ◌≢◌, ◌<◌, ◌+◌, ◌==◌, not, if◌then◌else◌};
ghost use Rattle.scheduler.specs.Counts.{plus};
ghost use Rattle.scheduler.specs.Backing.{none_backed_off, one_backs_off, one_is_woken, all_are_woken, one_resumes, with_turn, begun_anew, between, after_turn};

/// After how many turns at once of little work a worker wakes another, at first and at most: twice as many after each
/// one who backs off.
const FIRST_TURNS_TO_A_WAKEUP: u64 = 1_024;

const MOST_TURNS_TO_A_WAKEUP: u64 = 8_192;

/// To how many turns at once of little work a worker may find the lock taken once.
const TURNS_TO_A_WAIT: u64 = 8;

/// What a worker does between two turns.
#[derive(Clone, Copy, PartialEq, Eq)]
pub enum Between {
    /// Nothing.
    GoOn,
    /// It sleeps till it is woken.
    BackOff,
    /// It wakes another worker.
    WakeOne,
}

/// How a worker has found the lock since it last waited for a message or backed off, what work its last jobs were,
/// after how many turns at once it wakes another, and the version of the configuration that it has waited for.
#[derive(Clone, Copy)]
pub struct Backoff {
    /// How often somebody else held it.
    contended: u64,
    /// How many turns at once the worker has made.
    turns: u64,
    is_much_work: bool,
    turns_to_a_wakeup: u64,
    version: u64,
}

impl Backoff {
    /// That of a worker who begins.
    pub fn new() -> Self
        ensures contended { result.contended ≡ 0 }
        ensures turns { result.turns ≡ 0 }
    {
        Backoff {
            contended: 0,
            turns: 0,
            is_much_work: false,
            turns_to_a_wakeup: FIRST_TURNS_TO_A_WAKEUP,
            version: 0,
        }
    }

    /// The worker begins anew, after it has waited or backed off.
    pub fn reset(&mut self)
        ensures { self.new ≡ begun_anew self.old }
    {
        self.contended = 0;
        self.turns = 0;
    }

    /// The lock was held by somebody else, or free.
    pub fn note_lock(&mut self, is_contended: bool)
        ensures { self.new ≡ (if is_contended then record self.old { contended = plus self.old.contended 1 } else
            self.old) }
    {
        if is_contended {
            self.contended = self.contended.saturating_add(1);
        }
    }

    /// The jobs were much work, or little, and so many turns at once of little work are made to a wakeup.
    pub fn note_work(&mut self, is_much_work: bool, turns_to_a_wakeup: u64)
        ensures { self.new ≡ record self.old {
          is_much_work = is_much_work;
          turns_to_a_wakeup = turns_to_a_wakeup;
        } }
    {
        self.is_much_work = is_much_work;
        self.turns_to_a_wakeup = turns_to_a_wakeup;
    }

    /// Whether the version is another than that of the last look.
    pub fn sees_edits(&mut self, version: u64) -> bool
        ensures seen { result ≡ not (version == self.old.version) }
        ensures version { self.new ≡ record self.old { version = version } }
    {
        let is_new = version != self.version;
        self.version = version;
        is_new
    }

    /// What the worker does after its turns at once. After much work it wakes another. After little it backs off where
    /// it has found the lock taken often for the turns that it made: so who has just come makes way for who has long
    /// been at work.
    pub fn after_turns(&mut self) -> Between
        ensures between { result ≡ between (with_turn self.old) }
        ensures after { self.new ≡ after_turn (with_turn self.old) }
    {
        self.turns = self.turns.saturating_add(1);
        if self.is_much_work {
            return Between::WakeOne;
        }
        if self.contended.saturating_mul(TURNS_TO_A_WAIT) > self.turns {
            self.reset();
            return Between::BackOff;
        }
        if self.turns.is_multiple_of(self.turns_to_a_wakeup) {
            Between::WakeOne
        } else {
            Between::GoOn
        }
    }
}

/// The workers who have backed off. It lies under the lock.
#[derive(Drop)]
pub(crate) struct BackedOff {
    /// How many of them sleep, and are not woken.
    asleep: u64,
    /// How many were woken, and do not run yet.
    woken: u64,
    turns_to_a_wakeup: u64,
}

impl BackedOff {
    /// Nobody has.
    pub(crate) fn new() -> Self
        ensures { result ≡ none_backed_off }
    {
        BackedOff {
            asleep: 0,
            woken: 0,
            turns_to_a_wakeup: FIRST_TURNS_TO_A_WAKEUP,
        }
    }

    /// After how many turns at once of little work a worker wakes another.
    pub(crate) fn turns_to_a_wakeup(&self) -> u64
        ensures { result ≡ self.now.turns_to_a_wakeup }
    {
        self.turns_to_a_wakeup
    }

    /// How many workers sleep, and are not woken.
    pub(crate) fn asleep(&self) -> u64
        ensures { result ≡ self.now.asleep }
    {
        self.asleep
    }

    /// One more has backed off: it was woken too early.
    pub(crate) fn add(&mut self)
        ensures { self.new ≡ one_backs_off self.old }
    {
        self.asleep = self.asleep.saturating_add(1);
        self.turns_to_a_wakeup = self
            .turns_to_a_wakeup
            .saturating_mul(2)
            .min(MOST_TURNS_TO_A_WAKEUP);
    }

    /// Wakes one who sleeps.
    pub(crate) fn wake_one(&mut self)
        ensures { self.new ≡ one_is_woken self.old }
    {
        self.asleep = self.asleep.saturating_sub(1);
        self.woken = self.woken.saturating_add(1);
    }

    /// Wakes all who sleep.
    pub(crate) fn wake_all(&mut self)
        ensures { self.new ≡ all_are_woken self.old }
    {
        self.woken = self.woken.saturating_add(self.asleep);
        self.asleep = 0;
    }

    /// Whether nobody is woken who does not run yet.
    pub(crate) fn is_none_woken(&self) -> bool
        ensures { result ≡ (self.now.woken == 0) }
    {
        self.woken == 0
    }

    /// One who was woken runs.
    pub(crate) fn resume(&mut self)
        ensures { self.new ≡ one_resumes self.old }
    {
        self.woken = self.woken.saturating_sub(1);
    }
}
